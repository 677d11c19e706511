/// One place of a four-state vector (IEEE 1364-2005, 4.1).
#[derive(Clone, Copy, PartialEq, Eq, Debug)]
pub enum Bit {
    /// 0, a low level or false.
    Zero,
    /// 1, a high level or true.
    One,
    /// x, a level that isn't known.
    Unknown,
    /// z, a place that nothing drives.
    HighZ,
}
