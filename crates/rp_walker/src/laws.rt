//! Laws of steps, records and walkers over rows that go on, and of the turns that are left to them.
//! A call does nothing, and its caller may then use them.
ghost use Rattle.rp_walker.specs.Bound.{ClosedIsDecided, LookingBackIsDecided, PollsAreSeen, SeenGrows, SeenIsSame, WalkerWorkGrows, WorkIsLinear};
ghost use Rattle.rp_walker.specs.EarlierFits.{EarlierFits};
ghost use Rattle.rp_walker.specs.FitLaws.{StepsMean, FitsStay, FirstFits, FitsInRows};
ghost use Rattle.rp_walker.specs.LeftLaw.{DroppedIsUnread, LeftIsBounded, LeftIsSame};
ghost use Rattle.rp_walker.specs.Walking.{StandsStays, StandsCanGoOn};

/// What steps over the rows that are kept of a partition mean for the partition.
pub fn law_steps()
    ensures { StepsMean }
{
    rp_known::law_known();
    rp_known::law_legs();
}

/// A record that fits what is known of an open partition fits what is known of it later, the first record fits every
/// partition, and a record that fits stands in the rows while its answer goes on. One that fitted while an open side made
/// every AND and OR open fits now.
pub fn law_records()
    ensures stay { FitsStay }
    ensures first { FirstFits }
    ensures in_rows { FitsInRows }
    ensures earlier { EarlierFits }
{
    rp_known::law_known();
    rp_known::law_legs();
    rp_known::law_earlier();
}

/// A walker stands over rows that go on as it stood before, and one that stands has a record to go on from.
pub fn law_walkers()
    ensures stay { StandsStays }
    ensures can { StandsCanGoOn }
{
    rp_known::law_known();
    rp_known::law_legs();
    rp_search::law_search();
    rp_conditions::law_tests();
    rp_eval::law_totals();
}

/// A walker never has more turns left than all starts of the known rows take, and as many over rows that agree from the
/// first one on that it still reads.
pub fn law_left()
    ensures bounded { LeftIsBounded }
    ensures same { LeftIsSame }
{
    rp_search::law_search();
    rp_conditions::law_tests();
}

/// Once the rows below its horizon were dropped, a walker stands over those that are left, which are all that it still
/// reads, and has as many turns left.
pub fn law_drops()
    ensures { DroppedIsUnread }
{
    law_walkers();
    law_left();
}

/// What is left to a walker before it finds a further match is linear in the rows: when it begins, and with each row that becomes
/// known. Over a closed partition no test is open, and where no condition looks ahead none of a known row is.
/// What is seen of a walker's search falls with each poll, rises with each row that becomes known, and is the same over as many rows.
pub fn law_work()
    ensures linear { WorkIsLinear }
    ensures grows { WalkerWorkGrows }
    ensures closed { ClosedIsDecided }
    ensures back { LookingBackIsDecided }
    ensures seen { PollsAreSeen }
    ensures rises { SeenGrows }
    ensures same { SeenIsSame }
{
    rp_search::law_search();
    rp_eval::law_conditions();
}
