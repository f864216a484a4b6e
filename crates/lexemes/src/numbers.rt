//! Numbers, by RFC 8259, section 6.

ghost use Rattle.grammar.specs.Reader.{digits_p, exp_p, frac_p, int_p, minus_p, number_p, power_p};
ghost use Rattle.lexemes.specs.Scan.{Goes, Passes};

use crate::bytes::{behind_byte, behind_run};
use crate::classes::ByteClass;
use crate::mismatch::Mismatch;

// [ minus ]
fn behind_minus(text: &[u8]) -> &[u8]
    ensures { Passes minus_p text.now result.now }
{
    behind_byte(text, ByteClass::Only(b'-')).unwrap_or(text)
}

// 1*DIGIT
fn behind_digits(text: &[u8]) -> Result<&[u8], Mismatch<'_>>
    ensures { Goes digits_p text.now result }
{
    let digits = behind_byte(text, ByteClass::Digit)?;
    Ok(behind_run(digits, ByteClass::Digit))
}

// int = zero / ( digit1-9 *DIGIT )
fn behind_int(text: &[u8]) -> Result<&[u8], Mismatch<'_>>
    ensures { Goes int_p text.now result }
{
    if let Ok(rest) = behind_byte(text, ByteClass::Only(b'0')) {
        return Ok(rest);
    }
    let digits = behind_byte(text, ByteClass::Range(b'1', b'9'))?;
    Ok(behind_run(digits, ByteClass::Digit))
}

// [ frac ], where frac = decimal-point 1*DIGIT
fn behind_frac(text: &[u8]) -> Result<&[u8], Mismatch<'_>>
    ensures { Goes frac_p text.now result }
{
    match behind_byte(text, ByteClass::Only(b'.')) {
        Ok(digits) => behind_digits(digits),
        Err(_) => Ok(text),
    }
}

// [ minus / plus ] 1*DIGIT
fn behind_power(text: &[u8]) -> Result<&[u8], Mismatch<'_>>
    ensures { Goes power_p text.now result }
{
    match behind_byte(text, ByteClass::Sign) {
        Ok(digits) => behind_digits(digits),
        Err(_) => behind_digits(text),
    }
}

// [ exp ], where exp = e [ minus / plus ] 1*DIGIT
fn behind_exp(text: &[u8]) -> Result<&[u8], Mismatch<'_>>
    ensures { Goes exp_p text.now result }
{
    match behind_byte(text, ByteClass::Exponent) {
        Ok(power) => behind_power(power),
        Err(_) => Ok(text),
    }
}

/// What is left behind a number.
// number = [ minus ] int [ frac ] [ exp ]
pub fn behind_number(text: &[u8]) -> Result<&[u8], Mismatch<'_>>
    ensures { Goes number_p text.now result }
{
    let int = behind_minus(text);
    let frac = behind_int(int)?;
    let exp = behind_frac(frac)?;
    behind_exp(exp)
}
