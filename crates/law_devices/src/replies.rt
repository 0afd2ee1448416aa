//! A reply is not answered: an end sends nothing for a packet that is neither a request nor a RESUME.
//!
//! The function does nothing. It promises the law that it names.

ghost use Rattle.law_devices.specs.Silent.{RepliesAreSilent};

/// Whatever a connected end does on a packet that is neither a request nor a RESUME, it sends nothing.
pub fn replies_are_not_answered()
    ensures { RepliesAreSilent }
{}
