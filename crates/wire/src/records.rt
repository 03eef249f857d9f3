/// A reader of the records of a file, from an offset on.
/// It is no Iterator: a reader that refuses stays where it is, so it would go on refusing without end, and a `for` needs an iterator that ends.
/// It holds the whole file with an offset, and not what is left, since faults tell the offset.
#[derive(Clone, Copy)]
pub struct Records<'a> {
    pub(crate) file: &'a [u8],
    pub(crate) offset: usize,
}
