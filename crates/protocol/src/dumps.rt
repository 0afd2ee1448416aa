//! Why bytes are no dump of a stopped context.

/// Why bytes are no dump. It is named at a place: the first byte of the field that is at fault.
///
/// The order of checking is field by field from the first, and the first fault is named (this project's choice).
#[derive(Clone, Copy, Debug, PartialEq, Eq)]
pub enum DumpWhy {
    /// The bytes end inside or before a field; named at the length of the bytes.
    Short,
    /// The first eight bytes are not those of a dump.
    Magic,
    /// The version is not a known one.
    Version,
    /// A text is not a name, or stands twice in its list.
    Name,
    /// A count is over its limit.
    Count,
    /// A value is out of its range, or breaks a rule.
    Field,
    /// Bytes follow the last field.
    Trailing,
}
