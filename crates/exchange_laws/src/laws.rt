// Laws of exchanged events.
ghost use Rattle.exchange_laws.specs.Theorems.{FormStays, HappensBeforeStays, BeforeStays, AxiomsStay, RacesStay, RaceFreeStays, LaterRacesStay, ChoicesStay, OptionsStay, FloorStays, BothStillFit};

/// Two neighbouring independent events of a log may be exchanged: happens-before, the axioms, races and the options of every later access
/// stay the same, up to the numbers of the two events. Which earlier event a race names may differ.
pub fn order_does_not_matter()
    ensures form { FormStays }
    ensures happens_before { HappensBeforeStays }
    ensures before { BeforeStays }
    ensures axioms { AxiomsStay }
    ensures races { RacesStay }
    ensures race_free { RaceFreeStays }
    ensures later_races { LaterRacesStay }
    ensures choices { ChoicesStay }
    ensures options { OptionsStay }
    ensures floor { FloorStays }
{}

/// Two neighbouring independent events fit the log in the other order too.
pub fn both_still_fit()
    ensures { BothStillFit }
{}
