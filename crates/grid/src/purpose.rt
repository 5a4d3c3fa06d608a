// What an element of a grid is for.
#[derive(Clone, Copy, PartialEq, Eq, Debug)]
pub enum Purpose {
    Reference,
    Data,
}
