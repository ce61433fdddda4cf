//! The laws.
ghost use Rattle.solv_laws.specs.Asked.{NothingGoesUnasked, JobsAreDone, ErasedLinesAreAsked};
ghost use Rattle.solv_laws.specs.Before.{RequiredIsThere};
ghost use Rattle.solv_laws.specs.Seeds.{SeedsPassNoLimit};
ghost use Rattle.solv_laws.specs.Unbroken.{RequirementsHold, ConflictsAreKept, RichConflictsAreKept, ObsoletionsAreKept, NamesAreKept};

use solv_base::evr_order_is_total;
use solv_script::grown_text_is_read;

/// In each set that meets the hard rules an installed package is there, or one of its name, or one that obsoletes it: all but
/// those that a job erases, with what is cleaned, and those that may go.
pub fn nothing_goes_unasked()
    ensures { NothingGoesUnasked }
{}

/// In each set that meets the hard rules the install, erase and lock jobs are done.
pub fn jobs_are_done()
    ensures { JobsAreDone }
{}

/// In each set that meets the hard rules nothing is broken. What was broken among the installed packages before is left alone,
/// unless a job verifies the package; two of one name that were both installed are left alone in any case.
pub fn nothing_is_broken()
    ensures requirements { RequirementsHold }
    ensures conflicts { ConflictsAreKept × RichConflictsAreKept }
    ensures obsoletions { ObsoletionsAreKept }
    ensures names { NamesAreKept }
{}

/// A line `erase P` stands among the changes of such a set only where a job erases P, where P is cleaned with what a job erases, or
/// where P may go. It rests on the order of EVRs being total.
pub fn erased_lines_are_asked()
    ensures { ErasedLinesAreAsked }
{
    evr_order_is_total();
}

/// In a good order each part of a requirement, outside conditions, that the set meets at all is there when its package is installed:
/// the package itself, the system or what stays meets it, or every package that comes and meets it stands before the package or is
/// in one cycle with it, which for a pre-requirement is one of pre-requirements.
pub fn required_is_there()
    ensures { RequiredIsThere }
{}

/// The task of a seed passes no limit of a book, so a program that solves it is not refused. It rests on how its text is read.
pub fn seeds_pass_no_limit()
    ensures { SeedsPassNoLimit }
{
    grown_text_is_read();
}
