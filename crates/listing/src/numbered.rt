// What a page tells of a refusal.

ghost use Rattle.std.specs.Prelude.{◌≡◌, ℕ};
ghost use Rattle.model.specs.Rules.{rule_number};

use model::Refusal;

// A refusal with its number and its place. A page answers any number, document 01's or not.
pub trait Numbered: Copy {
    ghost number_of: { Self → ℕ };

    ghost place_of: { Self → ℕ };

    fn number(self) -> usize
        ensures { result ≡ number_of self };

    fn place(self) -> usize
        ensures { result ≡ place_of self };
}

// It has the number of its Rule.
impl Numbered for Refusal {
    ghost number_of = { λ e. rule_number e.rule };

    ghost place_of = { λ e. e.place };

    fn number(self) -> usize {
        self.rule.number()
    }

    fn place(self) -> usize {
        self.place
    }
}

// A refusal as C and the documents have it: any number, and a place.
#[derive(Clone, Copy, PartialEq, Eq)]
pub struct NumberedRefusal {
    pub number: usize,
    pub place: usize,
}

impl Numbered for NumberedRefusal {
    ghost number_of = { λ e. e.number };

    ghost place_of = { λ e. e.place };

    fn number(self) -> usize {
        self.number
    }

    fn place(self) -> usize {
        self.place
    }
}
