ghost use Rattle.report_law.specs.FormLaws.{KeptSessionsAreOfGoodForm, LawfulSessionsAreOfGoodForm};
ghost use Rattle.report_law.specs.ReportLaws.{ReportsFixSessions};
ghost use Rattle.std.specs.Prelude.{◌≡◌};
ghost use Rattle.report_law.specs.GoodForm.{IsGoodForm};
ghost use Rattle.session_law.specs.Reports.{report_of};

use crate::bounds::numbers_are_words;
use session_law::Session;

// Laws over the definitions: each function does nothing, or no more than to read what it is handed, and its contract is
// the law.

/// A report fixes its session: no two sessions of good form have one report. Their numbers have 64 bits at most, which
/// the types of their fields say of every session in memory; `one_of_its_report` says the same of two such.
pub fn reports_fix_sessions()
    ensures { ReportsFixSessions }
{}

/// The same of two sessions at hand: where both are of good form and have one report, each is the other. It reads their
/// numbers, of which their types say that they have 64 bits at most.
pub fn one_of_its_report(one: &Session, other: &Session)
    ensures { IsGoodForm one.now → IsGoodForm other.now → report_of one.now ≡ report_of other.now → one.now ≡ other.now }
{
    numbers_are_words(one);
    numbers_are_words(other);
}

/// A session of a valid script is of good form whose entries, records, last state and order of lists keep the rules, and
/// whose reads are of good form. It asks nothing of the results of its batches, and nothing of its ends of tasks,
/// acknowledgements and watches but their order.
pub fn kept_sessions_are_of_good_form()
    ensures { KeptSessionsAreOfGoodForm }
{}

/// A lawful session of a valid script is of good form, so that its report fixes it.
pub fn lawful_sessions_are_of_good_form()
    ensures { LawfulSessionsAreOfGoodForm }
{}
