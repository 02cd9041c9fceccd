//! The names of generations, as they are stored.
ghost use Rattle.std.specs.Prelude.{◌≡◌};
ghost use Rattle.vol_model.specs.Trees.{inverted, is_digit, is_generation, stored_generation};

// A digit in EBCDIC.
fn is_digit(c: u8) -> bool
    ensures { result ≡ is_digit c }
{
    0xF0 <= c && c <= 0xF9
}

/// Whether it is GnnnnVnn, the name of a generation, in EBCDIC.
pub fn is_generation(name: [u8; 8]) -> bool
    ensures { result ≡ is_generation name }
{
    let [g, a, b, c, d, v, e, f] = name;
    g == 0xC7
        && (is_digit(a)
            && (is_digit(b)
                && (is_digit(c) && (is_digit(d) && (v == 0xE5 && (is_digit(e) && is_digit(f)))))))
}

// A digit with the low half of its byte inverted.
fn inverted(c: u8) -> u8
    ensures { result ≡ inverted c }
{
    0xFF - c.saturating_sub(0xF0)
}

// The bytes under which the name of a generation is stored, and the name that is stored so.
pub(crate) fn stored_generation(name: [u8; 8]) -> [u8; 8]
    ensures { result ≡ stored_generation name }
{
    let [g, a, b, c, d, v, e, f] = name;
    [
        g,
        inverted(a),
        inverted(b),
        inverted(c),
        inverted(d),
        v,
        e,
        f,
    ]
}
