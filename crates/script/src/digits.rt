// Numbers as they are printed. Most that are have one digit or two, the numbers of parts and their levels: these are written without the library's buffer.
ghost use Rattle.std.specs.Prelude.{◌<◌};
ghost use Rattle.std.specs.Fmt.{WritesOnOk, decimal};

use std::fmt::Formatter;
use std::{fmt, str};

// The digits of a number, whatever options the formatter has. What is taken unchecked is ASCII digits, hence UTF-8: that is proved.
#[inline(always)]
pub(crate) fn write_number<W: fmt::Write>(f: &mut Formatter<W>, n: u64) -> fmt::Result
    ensures { WritesOnOk W.write_str_gives f.old result (decimal n) f.new }
{
    if n < 10 {
        let digit = [b'0' + n as u8];
        return f.write_str(unsafe { str::from_utf8_unchecked(&digit) });
    }
    if n < 100 {
        let digits = [b'0' + (n / 10) as u8, b'0' + (n % 10) as u8];
        return f.write_str(unsafe { str::from_utf8_unchecked(&digits) });
    }
    f.write(n)
}
