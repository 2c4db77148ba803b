// Runs the specification's values at the edges, and prints a line for each: its name, and `ok` or what came instead.
#![tactic(auto)]

ghost use Rattle.std.specs.Prelude.{◌≡◌, Ok};
ghost use Rattle.irradiance.specs.Table.{table_row};

mod shades;
mod values;

use objects::answers::Refusal;
use simulation_time::run::Run;
use simulation_time::steps::check_run;
use simulation_time::timestep::{current_hour, time_series_idx};
use std::io;
use values::{Value, double_value, factor_value, run_value, same_value};

fn write_out(rt: &impl Print, text: &[u8]) -> io::Result<()> {
    rt.write_all(text)
}

fn write_value(rt: &impl Print, value: Value) -> io::Result<()> {
    match value {
        Ok(word) => print!(rt; "{word:016X}"),
        Err(number) => print!(rt; "refused {number}"),
    }
}

fn report(rt: &impl Print, name: &[u8], ok: bool, came: Value) -> io::Result<()> {
    write_out(rt, name)?;
    write_out(rt, b": ")?;
    if ok {
        write_out(rt, b"ok")?;
    } else {
        write_value(rt, came)?;
    }
    write_out(rt, b"\n")
}

fn compare(rt: &impl Print, name: &[u8], came: Value, expected: Value) -> io::Result<()> {
    report(rt, name, same_value(came, expected), came)
}

fn compare_double(rt: &impl Print, name: &[u8], came: f64, bits: u64) -> io::Result<()> {
    compare(rt, name, double_value(came), Ok(bits))
}

fn compare_factor(
    rt: &impl Print,
    name: &[u8],
    came: Result<f64, Refusal>,
    expected: Value,
) -> io::Result<()> {
    compare(rt, name, factor_value(came), expected)
}

fn sun_angles(rt: &impl Print) -> io::Result<()> {
    // The code counts days from 0.
    compare_double(
        rt,
        b"equation of time n = 359 gives 0",
        days::init_equation_of_time(358),
        0,
    )?;
    compare_double(
        rt,
        b"solar time 0.5 gives hour angle 180",
        sun::hour::init_solar_hour_angle(0.5),
        0x4066_8000_0000_0000,
    )?;
    compare_double(
        rt,
        b"solar time 0 gives hour angle -172.5",
        sun::hour::init_solar_hour_angle(0.0),
        0xC065_9000_0000_0000,
    )?;
    compare_double(
        rt,
        b"solar time 24.5 gives hour angle -180",
        sun::hour::init_solar_hour_angle(24.5),
        0xC066_8000_0000_0000,
    )
}

fn shifts(rt: &impl Print) -> io::Result<()> {
    compare_double(
        rt,
        b"longitude 0, timezone 0 gives shift 0",
        sun::hour::init_time_shift(0, 0.0),
        0,
    )?;
    let west = sun::hour::init_time_shift(0, -0.5);
    report(
        rt,
        b"longitude -0.5, timezone 0 gives a positive shift",
        0.0 < west,
        double_value(west),
    )
}

// The row of Table 8 at a clearness.
fn row_value(clearness: f64) -> Value
    ensures { result ≡ Ok (table_row clearness) }
{
    Ok(irradiance::table::table_row(clearness) as u64)
}

fn sky(rt: &impl Print) -> io::Result<()> {
    let clearness = irradiance::sky::init_dimensionless_clearness_parameter(100.0, 100.0, 0.0);
    compare_double(
        rt,
        b"diffuse 100, beam 100, altitude 0: clearness 2",
        clearness,
        0x4000_0000_0000_0000,
    )?;
    compare(
        rt,
        b"diffuse 100, beam 100, altitude 0: row 4",
        row_value(clearness),
        Ok(4),
    )
}

fn rows(rt: &impl Print) -> io::Result<()> {
    compare(rt, b"clearness 2: row 4", row_value(2.0), Ok(4))?;
    compare(rt, b"clearness 1.065: row 1", row_value(1.065), Ok(1))?;
    compare(rt, b"clearness 999: row 7", row_value(999.0), Ok(7))?;
    compare(rt, b"clearness NaN: row 7", row_value(0.0 / 0.0), Ok(7))
}

fn orientations(rt: &impl Print) -> io::Result<()> {
    compare_double(
        rt,
        b"orientation 0 becomes 180",
        orientation::transform_to_180(0.0),
        0x4066_8000_0000_0000,
    )?;
    compare_double(
        rt,
        b"orientation 360 becomes -180",
        orientation::transform_to_180(360.0),
        0xC066_8000_0000_0000,
    )
}

fn obstacles(rt: &impl Print) -> io::Result<()> {
    compare_factor(
        rt,
        b"distant obstacle 1 m gives 0.5",
        shades::distant_factor(0, 1.0, false),
        Ok(0x3FE0_0000_0000_0000),
    )?;
    compare_factor(
        rt,
        b"near obstacle 1 m, transparency 0.5 gives 0.75",
        shades::near_factor(),
        Ok(0x3FE8_0000_0000_0000),
    )?;
    compare_factor(
        rt,
        b"both give 0.5",
        shades::distant_factor(0, 1.0, true),
        Ok(0x3FE0_0000_0000_0000),
    )
}

fn overhangs(rt: &impl Print) -> io::Result<()> {
    compare_factor(
        rt,
        b"distant overhang at 1.5 m gives 0.75",
        shades::distant_factor(1, 1.5, false),
        Ok(0x3FE8_0000_0000_0000),
    )?;
    compare_factor(
        rt,
        b"distant overhang at 1.5 m and the near obstacle give 0.5",
        shades::distant_factor(1, 1.5, true),
        Ok(0x3FE0_0000_0000_0000),
    )
}

fn reveals(rt: &impl Print) -> io::Result<()> {
    compare_factor(
        rt,
        b"a reveal outside the beam gives 1",
        shades::part_factor(1, 4, 0.25, 180.0),
        Ok(0x3FF0_0000_0000_0000),
    )
}

// A fin 0.5 m deep, and the sun 30 degrees to its side.
fn fins(rt: &impl Print) -> io::Result<()> {
    compare_factor(
        rt,
        b"right fin, difference -30: edition 1 gives 1",
        shades::part_factor(1, 2, 0.5, -30.0),
        Ok(0x3FF0_0000_0000_0000),
    )?;
    compare_factor(
        rt,
        b"right fin, difference -30: edition 2 gives 0.7113248654051871",
        shades::part_factor(2, 2, 0.5, -30.0),
        Ok(0x3FE6_C32C_5D37_E672),
    )?;
    compare_factor(
        rt,
        b"left fin, difference 30: edition 1 gives 0.7113248654051871",
        shades::part_factor(1, 3, 0.5, 30.0),
        Ok(0x3FE6_C32C_5D37_E672),
    )?;
    compare_factor(
        rt,
        b"left fin, difference 30: edition 2 gives 0.7113248654051871",
        shades::part_factor(2, 3, 0.5, 30.0),
        Ok(0x3FE6_C32C_5D37_E672),
    )
}

fn editions(rt: &impl Print) -> io::Result<()> {
    compare_factor(
        rt,
        b"edition 0 refused 14",
        shades::part_factor(0, 2, 0.5, -30.0),
        Err(14),
    )?;
    compare_factor(
        rt,
        b"edition 3 and azimuth 400 refused 14",
        shades::part_factor(3, 2, 0.5, 400.0),
        Err(14),
    )
}

fn sectors(rt: &impl Print) -> io::Result<()> {
    compare_factor(
        rt,
        b"sectors 0..180, 190..360: azimuth 10 accepted",
        shades::two_sectors_factor(190.0, 10.0),
        Ok(0x3FF0_0000_0000_0000),
    )?;
    compare_factor(
        rt,
        b"sectors 0..180, 190..360: azimuth -20 refused 8",
        shades::two_sectors_factor(190.0, -20.0),
        Err(8),
    )?;
    compare_factor(
        rt,
        b"sectors 0..180, 180..360: azimuth 0 refused 10",
        shades::two_sectors_factor(180.0, 0.0),
        Err(10),
    )
}

fn steps(rt: &impl Print) -> io::Result<()> {
    compare(
        rt,
        b"start 0, end 3, step 1: three steps",
        run_value(shades::three_hours(0, 365)),
        Ok(3),
    )
}

fn leaf_days(rt: &impl Print) -> io::Result<()> {
    compare(
        rt,
        b"first leaf day 366 refused 15",
        run_value(shades::three_hours(366, 0)),
        Err(15),
    )?;
    compare(
        rt,
        b"last leaf day 366 refused 15",
        run_value(shades::three_hours(0, 366)),
        Err(15),
    )?;
    compare(
        rt,
        b"leaf days 365 and 365 accepted in a common year",
        run_value(shades::three_hours(365, 365)),
        Ok(3),
    )
}

// How many bytes the list for a day has, out of 500 of summer, with two whole records, and 216 of winter.
fn list_length(first: u64, last: u64, day: u64) -> Value {
    let summer = [0u8; 500];
    let winter = [0u8; 216];
    Ok(seasons::sectors_for(&summer, &winter, first, last, day).len() as u64)
}

fn seasons_of_days(rt: &impl Print) -> io::Result<()> {
    compare(
        rt,
        b"leaf days 109 to 303: winter on day 108",
        list_length(109, 303, 108),
        Ok(216),
    )?;
    compare(
        rt,
        b"leaf days 109 to 303: summer on day 109",
        list_length(109, 303, 109),
        Ok(432),
    )?;
    compare(
        rt,
        b"leaf days 109 to 303: summer on day 303",
        list_length(109, 303, 303),
        Ok(432),
    )?;
    compare(
        rt,
        b"leaf days 109 to 303: winter on day 304",
        list_length(109, 303, 304),
        Ok(216),
    )
}

// The first leaf day above the last.
fn turned_seasons(rt: &impl Print) -> io::Result<()> {
    compare(
        rt,
        b"leaf days 303 to 109: summer on day 109",
        list_length(303, 109, 109),
        Ok(432),
    )?;
    compare(
        rt,
        b"leaf days 303 to 109: winter on day 110",
        list_length(303, 109, 110),
        Ok(216),
    )?;
    compare(
        rt,
        b"leaf days 303 to 109: winter on day 302",
        list_length(303, 109, 302),
        Ok(216),
    )?;
    compare(
        rt,
        b"leaf days 303 to 109: summer on day 303",
        list_length(303, 109, 303),
        Ok(432),
    )
}

// The first leaf day right behind the last.
fn always_summer(rt: &impl Print) -> io::Result<()> {
    compare(
        rt,
        b"leaf days 10 to 9: summer on day 9",
        list_length(10, 9, 9),
        Ok(432),
    )?;
    compare(
        rt,
        b"leaf days 10 to 9: summer on day 10",
        list_length(10, 9, 10),
        Ok(432),
    )
}

// How many steps a run has, in a year of 8760 hours.
fn step_count(start: f64, end: f64, step: f64) -> Value {
    let run = Run { start, end, step };
    check_run(run, 8760).ok_or(u64::from(Refusal::Run))
}

fn step_counts(rt: &impl Print) -> io::Result<()> {
    compare(
        rt,
        b"start 0, end 3, step 0.3: eleven steps",
        step_count(0.0, 3.0, 0.3),
        Ok(11),
    )?;
    compare(
        rt,
        b"start 3, end 3, step 1: no step",
        step_count(3.0, 3.0, 1.0),
        Ok(0),
    )?;
    compare(
        rt,
        b"start 5, end 3, step 1: one step",
        step_count(5.0, 3.0, 1.0),
        Ok(1),
    )
}

// Hours of the year, and places in a half-hourly series from day 1 on.
fn hours_and_places(rt: &impl Print) -> io::Result<()> {
    compare(
        rt,
        b"time 24.75 is in hour 24",
        Ok(current_hour(24.75) as u64),
        Ok(24),
    )?;
    compare(
        rt,
        b"time 24.75 has place 1",
        Ok(time_series_idx(24.75, 1, 0.5) as u64),
        Ok(1),
    )?;
    compare(
        rt,
        b"time 0 has place 0",
        Ok(time_series_idx(0.0, 1, 0.5) as u64),
        Ok(0),
    )
}

fn main(rt: HostRuntime) -> io::Result<()> {
    sun_angles(&rt)?;
    shifts(&rt)?;
    sky(&rt)?;
    rows(&rt)?;
    orientations(&rt)?;
    obstacles(&rt)?;
    overhangs(&rt)?;
    reveals(&rt)?;
    fins(&rt)?;
    editions(&rt)?;
    sectors(&rt)?;
    steps(&rt)?;
    leaf_days(&rt)?;
    seasons_of_days(&rt)?;
    turned_seasons(&rt)?;
    always_summer(&rt)?;
    step_counts(&rt)?;
    hours_and_places(&rt)
}
