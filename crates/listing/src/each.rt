// One text after another.
ghost use Rattle.std.specs.Prelude.{◌≡◌, ◌+◌, ◌^◌, ◌<◌, ◌≤◌, ℕ, List};
ghost use Rattle.model.specs.Lists.{over};
ghost use Rattle.text.specs.Text.{says, written};

use text::Writer;

// What `write` writes of `count` numbers, one after another, from one on. No method of Writer: crate text knows no `over`.
#[tactic(auto, using(text::proofs::Laws::written_nothing))]
pub(crate) fn each<F: Fn(&mut Writer<'_>, usize)>(
    out: &mut Writer,
    from: usize,
    count: usize,
    write: F,
)
    requires room { from + count < 2 ^ 64 }
    requires callable { F.IsAlwaysCallable write }
    ensures { (f : ℕ → List ℕ) → ((i : ℕ) (old new : _) → from ≤ i → i < from + count → F.post write old i tt new → new.now ≡ written (f i) old.now) → says (over f from count) out }
{
    // Over numbers: each is what `write` is called with.
    for i in from..from + count {
        write(out, i);
    }
}
