/// How a row is written.
#[derive(Clone, Copy, Debug, PartialEq, Eq)]
pub enum RowForm {
    /// The row's runs, each as two little-endian `u32` numbers: its first number, and how many it has.
    V1,
}
