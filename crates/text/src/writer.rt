// What is written into, and where: a lent buffer of bytes, and the place where its next byte goes, which may be any number.
#[derive(Drop)]
pub struct Writer<'a> {
    pub buffer: &'a mut [u8],
    pub at: usize,
}
