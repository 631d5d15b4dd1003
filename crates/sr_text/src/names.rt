//! Names of signals.
ghost use Rattle.std.specs.Prelude.{◌≡◌};
ghost use Rattle.sr_text.specs.Name.{is_name_byte, is_name};

/// Whether the text is a name: not empty, each byte 33 to 126 and none of `( ) , = #`.
pub fn name_ok(name: &[u8]) -> bool
    ensures { result ≡ is_name name.now }
{
    !name.is_empty() && name.iter().all(|byte| is_name_byte(*byte))
}

/// 33 to 126, and none of `( ) , = #`.
pub fn is_name_byte(byte: u8) -> bool
    ensures { result ≡ is_name_byte byte }
{
    byte > 32 && byte < 127 && !matches!(byte, b'(' | b')' | b',' | b'=' | b'#')
}
