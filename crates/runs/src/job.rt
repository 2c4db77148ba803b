// A job: what goes into a run.
use objects::surface::Surface;
use simulation_time::run::Run;
use sun::site::Site;
use weather::Series;

// The sectors of summer and winter and the window objects are lent as lists of bytes, as the series are.
#[derive(Clone, Copy)]
pub struct Job<'a> {
    pub edition: u64,
    pub site: Site,
    pub run: Run,
    pub surface: Surface,
    pub series: Series<'a>,
    pub summer: &'a [u8],
    pub winter: &'a [u8],
    pub window: &'a [u8],
}
