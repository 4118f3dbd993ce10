//! Texts that stand alone.
ghost use Rattle.std.specs.Prelude.{◌≡◌, ◌↔◌, IsTrue};

/// Whether the bytes are this text.
pub fn is_text(bytes: &[u8], text: &str) -> bool
    ensures { IsTrue result ↔ (bytes.now ≡ text.now) }
{
    bytes == text.as_bytes()
}
