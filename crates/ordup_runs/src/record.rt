//! The job `record`.
ghost use Rattle.std.specs.Prelude.{◌≡◌};
ghost use Rattle.ordup_objects.specs.Tables.{index_of};
ghost use Rattle.ordup_runs.specs.Records.{PrintsRecord, PrintsSite, Records};

use crate::faults::{fault_of_script, fault_of_writing};
use ordup_audit::RecordView;
use ordup_faults::{DONE, Fault, Outcome, flush};
use ordup_primary::Primary;
use ordup_record::view_of;
use ordup_rows::write_view;
use ordup_script::{ScriptEnd, follow_script};
use std::alloc::Global;
use std::io::{Read, Write};

// promise Records: `ordup record SITE` prints the record of the site after the script
/// Runs a script and prints the record of a site in place of the answers.
///
/// The script was run from this reader, and no answer was formed. Then the record of what the primary has of the site was
/// printed. Where the run failed, no store started, or there is no such site, nothing was written, and the outcome says so.
pub fn print_record<R: Read, W: Write>(
    alloc: Global,
    site: &[u8],
    input: &mut R,
    output: &mut W,
) -> Outcome
    ensures { Records site.now (record {
      had = R.remaining input.old;
      has = R.remaining input.new;
      old = W.contents output.old;
      new = W.contents output.new;
    }) result }
{
    match follow_script(alloc, input) {
        Ok(ScriptEnd::Running(world)) => {
            let printed = print_site(alloc, site, world.primary(), output);
            world.discard();
            printed
        }
        Ok(ScriptEnd::Declared(setup)) => {
            setup.discard();
            Err(Fault::NotStarted)
        }
        Err(fault) => Err(fault_of_script(fault)),
    }
}

/// Prints the record of the site of this name. Where there is none, nothing is written.
fn print_site<W: Write>(alloc: Global, site: &[u8], primary: &Primary, output: &mut W) -> Outcome
    ensures { PrintsSite primary.now (index_of site.now primary.now.setup.sites) (W.contents output.old) (W.contents output.new) result }
{
    primary.keeps();
    let Some(site) = primary.setup().find_site(site) else {
        return Err(Fault::UnknownSite);
    };
    match view_of(primary, site) {
        Ok(audited) => print_rows(alloc, &audited, output),
        Err(_) => Err(Fault::UnknownSite),
    }
}

/// Prints a record: all of its rows, or a prefix of them where the writer fails, or nothing for want of memory.
fn print_rows<W: Write>(alloc: Global, audited: &RecordView<'_>, output: &mut W) -> Outcome
    ensures { PrintsRecord audited.now (W.contents output.old) (W.contents output.new) result }
{
    if let Err(fault) = write_view(alloc, audited, output) {
        return Err(fault_of_writing(fault));
    }
    flush(output)?;
    Ok(DONE)
}
