// The types of the fields of entries.

/// What a field of an entry may hold.
#[derive(Clone, Copy)]
pub enum FieldType {
    /// The field is not named: it is 0.
    Absent,
    /// A `u8`.
    Byte,
    /// A `u16`.
    Short,
    /// A `u32`.
    Word,
    /// An `i64` that is not negative.
    Natural,
    /// An `i64`.
    Integer,
}
