// What reads the body of a program: the reader of its bytes, with how many variables it has.
use program::reader::Reader;

#[derive(Clone, Copy)]
pub struct Body<'a> {
    pub reader: Reader<'a>,
    pub variables: u8,
}
