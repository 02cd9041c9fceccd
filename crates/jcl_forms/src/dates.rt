//! LABEL, and dates.
ghost use Rattle.std.specs.Prelude.{◌≡◌, ◌<◌, ◌≤◌};
ghost use Rattle.jcl_forms.specs.Dates.{IsDate, days_before, date_bytes, date_of_day, date_after, date_in, expiry_of};

use crate::numbers::number_below;
use crate::parts::parted;

// The days of all years from 1900 on before this one, of which 1900 had 365.
#[tactic(auto, using(crate::proofs::DateLemmas::days_before_is))]
fn days_before(year: u32) -> u32
    requires { year ≤ 100 }
    ensures days { result ≡ days_before year }
    ensures bound { result ≤ 36525 }
{
    365 * year + year.saturating_sub(1) / 4
}

fn date_bytes(year: u8, day: u16) -> [u8; 3]
    ensures { result ≡ date_bytes year day }
{
    [year, (day / 256) as u8, (day % 256) as u8]
}

// The date of a day that is counted from the beginning of 1900.
#[tactic(auto, using(crate::proofs::DateLemmas::days), unfolding(crate::specs::Dates::date_of_day))]
fn date_of_day(day: u32) -> Option<[u8; 3]>
    ensures { result ≡ date_of_day day }
{
    for year in 0..100u8 {
        let before = days_before(u32::from(year));
        if day <= days_before(u32::from(year) + 1) {
            return Some(date_bytes(year, (day - before) as u16));
        }
    }
    None
}

/// The date that is so many days after another, unless it is after 99365. Dates are the year since 1900 and a day of two
/// bytes. A year has 366 days where its number since 1900 is a multiple of 4 above 0.
#[tactic(auto, unfolding(crate::specs::Dates::date_after))]
pub fn date_after(date: &[u8; 3], days: u32) -> Option<[u8; 3]>
    requires date { IsDate date.now }
    requires days { days < 10000 }
    ensures { result ≡ date_after date.now days }
{
    let day = u32::from(date[1]) * 256 + u32::from(date[2]);
    date_of_day(days_before(u32::from(date[0])) + (day + days))
}

/// The date that five digits `yyddd` give: the year since 1900 and a day of 001 to 366, in two bytes.
#[tactic(auto, unfolding(crate::specs::Dates::date_in))]
pub fn date_in(text: &[u8]) -> Option<[u8; 3]>
    ensures { result ≡ date_in text.now }
{
    if text.len() != 5 {
        return None;
    }
    let number = number_below(100_000, text)?;
    let day = number % 1000;
    if day > 0 && day < 367 {
        Some(date_bytes((number / 1000) as u8, day as u16))
    } else {
        None
    }
}

/// The expiry that a value of LABEL gives on a date: `EXPDT=yyddd` with a day of 1 to 366, or `RETPD=n` with n at most 9999 for
/// n days after the date.
#[tactic(auto, unfolding(crate::specs::Dates::expiry_of))]
pub fn expiry_of(date: &[u8; 3], text: &[u8]) -> Option<[u8; 3]>
    requires { IsDate date.now }
    ensures { result ≡ expiry_of date.now text.now }
{
    let (key, value) = parted(b'=', text);
    let value = value?;
    if key == b"EXPDT".as_slice() {
        date_in(value)
    } else if key == b"RETPD".as_slice() {
        date_after(date, number_below(10_000, value)?)
    } else {
        None
    }
}
