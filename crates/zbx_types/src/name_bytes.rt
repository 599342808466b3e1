//! The bytes of names.

ghost use Rattle.std.specs.Prelude.{◌≡◌};
ghost use Rattle.zbx_types.specs.NameBytes.{is_host_name_byte, is_macro_name_byte};

/// Whether a byte may stand in the name of a host or template: letters, digits, space, `_`, `-` and `.` (the Zabbix 6.0
/// manual, "Configuring a host").
pub fn is_host_name_byte(c: u8) -> bool
    ensures { result ≡ is_host_name_byte c }
{
    c.is_ascii_alphanumeric() || c == b' ' || c == b'_' || c == b'-' || c == b'.'
}

/// Whether a byte may stand in the name of a user macro: A to Z, 0 to 9, `_` and `.` (the Zabbix 6.0 manual, "User macros").
pub fn is_macro_name_byte(c: u8) -> bool
    ensures { result ≡ is_macro_name_byte c }
{
    c.is_ascii_uppercase() || c.is_ascii_digit() || c == b'_' || c == b'.'
}
