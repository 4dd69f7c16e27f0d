// The digits of a small number, put on a page one by one: this takes neither a buffer nor a copy, and most numbers of an
// answer are small. As much of the text stands on the page as there is room for, since each byte looks for its own.
ghost use Rattle.std.specs.{Prelude.{◌≡◌, ◌+◌, ◌<◌, [], ◌∷◌}, Fmt.{decimal}};
ghost use Rattle.sfm_cert.specs.Pages.{after_page};

use sfm_base::Page;

/// Puts a byte at the end of a page, where there is room for it.
#[inline(always)]
pub(crate) fn put_byte_upto(page: &mut Page, byte: u8)
    ensures { page.new ≡ after_page page.old (byte ∷ []) }
{
    if page.spare() > 0 {
        page.put_byte(byte);
    }
}

/// Puts a digit at the end of a page, where there is room for it.
#[inline(always)]
fn put_digit(page: &mut Page, digit: u8)
    requires { digit < 10 }
    ensures { page.new ≡ after_page page.old ((48 + digit) ∷ []) }
{
    put_byte_upto(page, b'0' + digit);
}

/// Puts the text of a number below 100, which takes no buffer.
#[inline(always)]
fn put_pair(page: &mut Page, n: u8)
    requires { n < 100 }
    ensures { page.new ≡ after_page page.old (decimal n) }
{
    if n >= 10 {
        put_digit(page, n / 10);
    }
    put_digit(page, n % 10);
}

/// Puts the text of a number below 1,000, which takes no buffer.
#[inline(always)]
pub(crate) fn put_few(page: &mut Page, n: u16)
    requires { n < 1000 }
    ensures { page.new ≡ after_page page.old (decimal n) }
{
    if n < 100 {
        put_pair(page, n as u8);
    } else {
        put_pair(page, (n / 10) as u8);
        put_digit(page, (n % 10) as u8);
    }
}
