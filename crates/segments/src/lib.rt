// The walk along the sectors, after the Rust's `get_segment`.
#![tactic(auto)]

ghost use Rattle.std.specs.Prelude.{◌≡◌, ◌<◌, length, IfOk};
ghost use Rattle.objects.specs.Records.{Readable, sectors_of};
ghost use Rattle.segments.specs.Segments.{between_ends, place_of};
ghost use Rattle.segments.specs.FoundSegment.{segment_found};

use objects::answers::Refusal;
use objects::records;
use objects::sectors::ShadingSegment;

// Whether the azimuth is strictly between a sector's ends.
fn between_ends(azimuth: f64, start360: f64, end360: f64) -> bool
    ensures { result ≡ between_ends azimuth start360 end360 }
{
    (azimuth < orientation::transform_to_180(start360))
        & (orientation::transform_to_180(end360) < azimuth)
}

// The place of the sector with the sun, by its azimuth from south in degrees, or why there is none: at each sector gap, then turned,
// then match. The first sector's start is free.
pub fn get_segment(azimuth: f64, sectors: &[ShadingSegment]) -> Result<usize, Refusal>
    ensures place { result ≡ place_of azimuth sectors.now }
    ensures within { IfOk result (λ i. i < length sectors.now) }
{
    let mut last = 0.0;
    for (i, sector) in sectors.iter().enumerate() {
        if (i != 0) & (last != sector.start360) {
            return Err(Refusal::Gap);
        }
        if sector.end360 < sector.start360 {
            return Err(Refusal::Turned);
        }
        if between_ends(azimuth, sector.start360, sector.end360) {
            return Ok(i);
        }
        last = sector.end360;
    }
    Err(Refusal::NoSector)
}

// The sector with the sun, and its place.
#[derive(Clone, Copy)]
pub struct FoundSegment {
    pub place: usize,
    pub segment: ShadingSegment,
}

// The sector with the sun in a checked list, or why there is none, for a single sun. The table is filled here, since one that comes
// from a function is copied once more. A list without a sector is turned down before it, since to clear the table takes about 100 ns.
pub fn find_segment(azimuth: f64, sectors: &[u8]) -> Result<FoundSegment, Refusal>
    requires { Readable sectors.now }
    ensures { result ≡ segment_found azimuth (sectors_of sectors.now) }
{
    let n = records::sector_count(sectors);
    if n == 0 {
        return Err(Refusal::NoSector);
    }
    let mut places = records::no_sectors();
    for i in 0..n {
        places[i] = records::segment_at(sectors, i);
    }
    let place = get_segment(azimuth, &places[..n])?;
    let segment = places[place];
    Ok(FoundSegment { place, segment })
}
