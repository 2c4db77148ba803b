ghost use Rattle.std.specs.Prelude.{◌≡◌};
ghost use Rattle.objects.specs.Refusals.{number_of};

// Why a job, a step or a line is turned down.
#[derive(Clone, Copy, Debug, PartialEq, Eq)]
pub enum Refusal {
    Site,
    Run,
    Surface,
    Object,
    Series,
    Reading,
    Results,
    Gap,
    Turned,
    NoSector,
    Reveal,
    Line,
    Edition,
    LeafDay,
}

// The specification's number of a refusal.
impl From<Refusal> for u64 {
    ghost from_gives = { λ refusal number. number ≡ number_of refusal };

    #[tactic(auto, unfolding(crate::specs::Refusals::number_of))]
    fn from(refusal: Refusal) -> u64 {
        match refusal {
            Refusal::Site => 1,
            Refusal::Run => 2,
            Refusal::Surface => 3,
            Refusal::Object => 4,
            Refusal::Series => 5,
            Refusal::Reading => 6,
            Refusal::Results => 7,
            Refusal::Gap => 8,
            Refusal::Turned => 9,
            Refusal::NoSector => 10,
            Refusal::Reveal => 11,
            Refusal::Line => 12,
            Refusal::Edition => 14,
            Refusal::LeafDay => 15,
        }
    }
}
