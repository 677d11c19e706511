ghost use Rattle.std.specs.Prelude.{◌≡◌, ◌≤◌, ◌≤ℤ◌, pos, negsuc, length};
ghost use Rattle.strengths.specs.Resolver.{used, HaveOneWidth, joined, first_width, resolved_by, pulled};
ghost use Rattle.strengths.specs.Level.{resolved};
ghost use Rattle.strengths.specs.Wired.{Shows, seen_at};

use crate::level::Level;
use crate::levels::{Vec8, resolve};
use crate::places::Places;
use four_state::ResKind;

/// What a net makes of its drivers, the ports that are there (IEEE 1364-2005, clauses 4.6 and 7.10 to
/// 7.13). All have one width, which the result has too.
///
/// A `Tri` net resolves them in their order; `Tri0` and `Tri1` then resolve that with a pull to 0 or
/// to 1. `Triand` and `Trior` look at the seen bits, where z counts only if all are z: a 0, or for
/// `Trior` a 1, prevails over x, and x over the other. What they make is strong.
pub fn resolve_kind(kind: ResKind, ports: &[Option<Vec8>]) -> Vec8
    requires one { 1 ≤ length (used ports.now) }
    requires same_width { HaveOneWidth (used ports.now) }
    ensures { result ≡ resolved_by kind (used ports.now) }
{
    match kind {
        ResKind::Tri => all_resolved(ports),
        ResKind::Tri0 => pulled(all_resolved(ports), -5),
        ResKind::Tri1 => pulled(all_resolved(ports), 5),
        ResKind::Triand => {
            let (places, width) = shown(ports);
            Vec8::driven(places, 6, 6, width)
        }
        ResKind::Trior => {
            let (places, width) = shown(ports);
            Vec8::driven(places.ones_first(), 6, 6, width)
        }
    }
}

/// A vector, resolved with one level at each place.
fn pulled(v: Vec8, level: i8) -> Vec8
    requires least { negsuc 6 ≤ℤ level }
    requires most { level ≤ℤ pos 7 }
    ensures { result ≡ pulled (record { lo = level; hi = level }) v }
{
    resolve(
        v,
        Vec8::splat(
            Level {
                lo: level,
                hi: level,
            },
            v.width(),
        ),
    )
}

/// The ports that are there, resolved in their order.
fn all_resolved(ports: &[Option<Vec8>]) -> Vec8
    requires one { 1 ≤ length (used ports.now) }
    requires same_width { HaveOneWidth (used ports.now) }
    ensures { result ≡ joined resolved (used ports.now) }
{
    let mut all = None;
    for port in ports {
        if let Some(next) = port {
            all = match all {
                None => Some(*next),
                Some(before) => Some(resolve(before, *next)),
            };
        }
    }
    all.unwrap()
}

/// The places at which some of the ports that are there show a 0, a 1 and an x, and their width.
fn shown(ports: &[Option<Vec8>]) -> (Places, u8)
    requires one { 1 ≤ length (used ports.now) }
    requires same_width { HaveOneWidth (used ports.now) }
    ensures width { result.1 ≡ first_width (used ports.now) }
    ensures least { 1 ≤ result.1 }
    ensures most { result.1 ≤ 128 }
    ensures shows { Shows result.0 result.1 (seen_at (used ports.now)) }
{
    let mut places = Places::NONE;
    let mut width = 0;
    for port in ports {
        if let Some(next) = port {
            places = places.with(next.places());
            width = next.width();
        }
    }
    (places, width)
}
