// Service 19, 07 and 08: the fault codes that match a severity mask and a status mask, counted and listed.
ghost use Rattle.std.specs.Prelude.{◌≡◌, ℕ, ◌+◌, ◌≤◌, length, get_or};
ghost use Rattle.identifiers.specs.Below.{count_below, list_below};
ghost use Rattle.identifiers.specs.Bytes.{Puts};
ghost use Rattle.server.specs.Severity.{severe, severity_to_status, severe_at};

use crate::faults::{put, put_code_and_status};
use crate::places::count_where;

// The severity mask and the status mask of a request.
#[derive(Clone, Copy)]
pub struct Masks {
    pub severity: u8,
    pub status: u8,
}

fn is_severe(masks: Masks, severity: u8, status: u8) -> bool
    ensures { result ≡ severe masks severity status }
{
    (severity & masks.severity != 0) & (status & masks.status != 0)
}

// Whole arrays, and how many of their places are held, as a `TrailerRecord` has them; no type holds these, since it has no severities.
pub fn count_severe<'a>(
    statuses: &'a [u8; 63],
    severities: &'a [u8; 63],
    masks: Masks,
    count: usize,
) -> usize
    requires { count ≤ 63 }
    ensures { result ≡ count_below (λ i. severe masks (get_or severities.now i 0) (get_or statuses.now i 0)) count }
{
    count_where(count, |i| is_severe(masks, severities[i], statuses[i]))
}

fn put_severity_to_status(
    response: &mut [u8],
    at: usize,
    severity: u8,
    unit: u8,
    code: u32,
    status: u8,
) -> usize
    requires { at + 6 ≤ length response.old }
    ensures { Puts response.old at (severity_to_status severity unit code status) result response.new }
{
    let next = put(response, at, &[severity, unit]);
    put_code_and_status(response, next, code, status)
}

// Writes severity, unit, code and status of each that matches, in order, and says where they end: by the place, of four arrays side by side. `put_report` puts
// something else of each, and a closure that writes would have a longer contract than the loop.
pub fn put_severe<'a>(
    codes: &'a [u32; 63],
    statuses: &'a [u8; 63],
    severities: &'a [u8; 63],
    units: &'a [u8; 63],
    masks: Masks,
    count: usize,
    response: &mut [u8],
    start: usize,
) -> usize
    requires { (count ≤ 63) × (start + length (list_below (λ i. severe_at masks (get_or severities.now i 0) (get_or units.now i 0) (get_or codes.now i 0) (get_or statuses.now i 0)) count) ≤ length response.old) }
    ensures { Puts response.old start (list_below (λ i. severe_at masks (get_or severities.now i 0) (get_or units.now i 0) (get_or codes.now i 0) (get_or statuses.now i 0)) count) result response.new }
{
    let mut at = start;
    for i in 0..count {
        let severity = severities[i];
        let status = statuses[i];
        if is_severe(masks, severity, status) {
            at = put_severity_to_status(response, at, severity, units[i], codes[i], status);
        }
    }
    at
}
