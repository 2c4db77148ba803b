// The irradiance on the surface and the parts that it is added up of.
ghost use Rattle.std.specs.Prelude.{◌≡◌};
ghost use Rattle.irradiance.specs.Parts.{direct_irradiance, ground_reflection, irradiance_of};

use crate::sky::Sky;
use crate::surface::Incidence;
use angles::SinCos;

fn direct_irradiance(beam: f64, cos_incidence: f64) -> f64
    ensures { result ≡ direct_irradiance beam cos_incidence }
{
    let direct = beam * cos_incidence;
    if direct < 0.0 { 0.0 } else { direct }
}

fn ground_reflection_irradiance(
    diffuse: f64,
    beam: f64,
    sin_altitude: f64,
    reflectivity: f64,
    cos_tilt: f64,
) -> f64
    ensures { result ≡ ground_reflection diffuse beam sin_altitude reflectivity cos_tilt }
{
    (diffuse + beam * sin_altitude) * reflectivity * ((1.0 - cos_tilt) / 2.0)
}

// What falls on the surface, in W/m².
#[derive(Clone, Copy)]
pub struct Irradiance {
    pub direct: f64,
    pub diffuse: f64,
    pub total: f64,
    pub sky: f64,
    pub circumsolar: f64,
    pub horizontal: f64,
    pub from_ground: f64,
}

// In W/m², by the tilt, the sun's incidence, the sky, the sine of the sun's altitude and the ground's reflectivity, 0 to 1.
pub fn calculated_direct_diffuse_total_irradiance(
    tilt: SinCos,
    incidence: Incidence,
    sky: Sky,
    sin_altitude: f64,
    reflectivity: f64,
) -> Irradiance
    ensures { result ≡ irradiance_of tilt incidence sky sin_altitude reflectivity }
{
    let sky_part = sky.diffuse * (1.0 - sky.f1) * ((1.0 + tilt.cos) / 2.0);
    let circumsolar = sky.diffuse * sky.f1 * incidence.a_over_b;
    let horizontal = sky.diffuse * sky.f2 * tilt.sin;
    let from_ground = ground_reflection_irradiance(
        sky.diffuse,
        sky.beam,
        sin_altitude,
        reflectivity,
        tilt.cos,
    );
    let direct = direct_irradiance(sky.beam, incidence.cos) + circumsolar;
    let diffuse = sky_part + circumsolar + horizontal - circumsolar + from_ground;
    Irradiance {
        direct,
        diffuse,
        total: direct + diffuse,
        sky: sky_part,
        circumsolar,
        horizontal,
        from_ground,
    }
}
