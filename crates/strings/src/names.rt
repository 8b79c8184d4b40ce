// What a name is, told apart as by `std::path::Component`. It stands in a file of its own: beside the function `dots` Rattle refuses its name.
#[derive(Clone, Copy, PartialEq, Eq)]
pub enum Dots {
    CurDir,
    ParentDir,
    Normal,
}
