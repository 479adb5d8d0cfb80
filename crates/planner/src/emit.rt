// The cycles of a choice put on a sheet. Part, write and sheet stay three parameters: each function says of each of them what it
// leaves, which a struct of the three would have to say again.
ghost use Rattle.std.specs.Prelude.{◌≡◌, ◌+◌, ◌*◌, ◌<◌, if◌then◌else◌, slice_index_or};
ghost use Rattle.memory.specs.declared.kind.Kind.TheVariants.{Program, Alter};
ghost use Rattle.least.specs.Plan.{lowers};
ghost use Rattle.planner.specs.declared.chosen.Treatment.TheVariants.{Erased, Kept};
ghost use Rattle.planner.specs.Asking.{for_marks, for_page, for_pages, for_steps};
ghost use Rattle.planner.specs.Looking.{LookedBy};
ghost use Rattle.planner.specs.Wanted.{Fitting, PagesIn, Readable};
ghost use Rattle.planner.specs.Sending.{Laid, Sent, full};
ghost use Rattle.planner.specs.Lists.{bulk_list, page_list, pages_list, sector_list, sectors_list};
ghost use Rattle.planner.specs.Choice.{Chosen};
ghost use Rattle.planner.specs.Call.{plan_list};

use crate::chosen::{Choice, Erasure, Treatment};
use crate::look::{both_pages, wanted_page};
use crate::overlay::Write;
use crate::page::{BLANK, Page, only_lowers};
use crate::sheet::Sheet;
use least::step::Step;
use memory::geometry::MOST_SECTORS;
use memory::kind::Kind;
use memory::model::PAGE_BYTES;
use part::part::Part;

// How a page is written that was not erased.
fn kept_kind(old: &Page, new: &Page) -> Kind
    ensures { result ≡ (if lowers old.now new.now then Program else Alter) }
{
    if only_lowers(old, new) {
        Kind::Program
    } else {
        Kind::Alter
    }
}

// Page q. It is read only if there is room for a step, and as it stands only if the write touches it, once erased only if
// the write does not cover it.
fn put_page<P: Part>(
    part: &mut P,
    write: Write<'_>,
    treatment: Treatment,
    q: usize,
    sheet: &mut Sheet<'_>,
)
    requires { Fitting (P.Part.meaning part.old) write.address write.bytes.now × Readable (P.Part.meaning part.old) q }
    ensures looked { LookedBy P.Part (if full sheet.old then 0 else for_page write.entry.address write.entry.bytes.now treatment q) part.old part.new }
    ensures sent { Sent (page_list (P.Part.meaning part.old) write.entry.address write.entry.bytes.now treatment q) sheet.old sheet.new }
{
    if sheet.is_full() {
        return;
    }
    match treatment {
        Treatment::Kept => {
            if write.touches(q) {
                let (old, new) = both_pages(part, write, q);
                let kind = kept_kind(&old, &new);
                sheet.put_page(kind, q, &old, &new);
            }
        }
        Treatment::Erased => {
            let new = wanted_page(part, write, q);
            sheet.put_page(Kind::Preset, q, &BLANK, &new);
        }
    }
}

// Pages one after another.
fn put_pages<P: Part>(
    part: &mut P,
    write: Write<'_>,
    treatment: Treatment,
    first: usize,
    count: usize,
    sheet: &mut Sheet<'_>,
)
    requires fitting { Fitting (P.Part.meaning part.old) write.address write.bytes.now }
    requires count_bound { PagesIn (P.Part.meaning part.old) first count }
    ensures looked { LookedBy P.Part (for_pages write.entry.address write.entry.bytes.now treatment first count) part.old part.new }
    ensures sent { Sent (pages_list (P.Part.meaning part.old) write.entry.address write.entry.bytes.now treatment first count) sheet.old sheet.new }
{
    for q in first..first + count {
        put_page(part, write, treatment, q, sheet);
    }
}

// Sector k, erased first if its pages are to be.
fn put_sector<P: Part>(
    part: &mut P,
    write: Write<'_>,
    treatment: Treatment,
    k: usize,
    sheet: &mut Sheet<'_>,
)
    requires { Fitting (P.Part.meaning part.old) write.address write.bytes.now × (k < (P.Part.meaning part.old).shape.sectors) }
    ensures looked { LookedBy P.Part (for_pages write.entry.address write.entry.bytes.now treatment (k * (P.Part.meaning part.old).shape.pages) (P.Part.meaning part.old).shape.pages) part.old part.new }
    ensures sent { Sent (sector_list (P.Part.meaning part.old) write.entry.address write.entry.bytes.now treatment k) sheet.old sheet.new }
{
    let count = part.pages();
    let first = k * count;
    if let Treatment::Erased = treatment {
        sheet.put_erase(Kind::SectorErase, first * PAGE_BYTES);
    }
    put_pages(part, write, treatment, first, count, sheet);
}

// The sectors by their marks.
fn put_sectors<P: Part>(
    part: &mut P,
    write: Write<'_>,
    marks: &[Treatment; MOST_SECTORS],
    sheet: &mut Sheet<'_>,
)
    requires { Fitting (P.Part.meaning part.old) write.address write.bytes.now }
    ensures looked { LookedBy P.Part (for_marks (P.Part.meaning part.old) write.entry.address write.entry.bytes.now (λ k. slice_index_or marks.now k Kept) (P.Part.meaning part.old).shape.sectors) part.old part.new }
    ensures sent { Sent (sectors_list (P.Part.meaning part.old) write.entry.address write.entry.bytes.now marks.now) sheet.old sheet.new }
{
    let sectors = part.sectors();
    for (k, treatment) in marks[..sectors].iter().enumerate() {
        put_sector(part, write, *treatment, k, sheet);
    }
}

// All, erased first.
fn put_bulk<P: Part>(part: &mut P, write: Write<'_>, sheet: &mut Sheet<'_>)
    requires { Fitting (P.Part.meaning part.old) write.address write.bytes.now }
    ensures looked { LookedBy P.Part (for_pages write.entry.address write.entry.bytes.now Erased 0 ((P.Part.meaning part.old).shape.sectors * (P.Part.meaning part.old).shape.pages)) part.old part.new }
    ensures sent { Sent (bulk_list (P.Part.meaning part.old) write.entry.address write.entry.bytes.now) sheet.old sheet.new }
{
    let count = part.sectors() * part.pages();
    sheet.put_erase(Kind::BulkErase, 0);
    put_pages(part, write, Treatment::Erased, 0, count, sheet);
}

// A choice.
fn put_choice<P: Part>(part: &mut P, write: Write<'_>, choice: &Choice, sheet: &mut Sheet<'_>)
    requires fitting { Fitting (P.Part.meaning part.old) write.address write.bytes.now }
    requires chosen { Chosen (P.Part.meaning part.old) write.address write.bytes.now choice.now }
    ensures looked { LookedBy P.Part (for_steps (P.Part.meaning part.old) write.entry.address write.entry.bytes.now) part.old part.new }
    ensures sent { Sent (plan_list (P.Part.meaning part.old) write.entry.address write.entry.bytes.now) sheet.old sheet.new }
{
    match &choice.erasure {
        Erasure::All => put_bulk(part, write, sheet),
        Erasure::Sectors(marks) => put_sectors(part, write, marks, sheet),
    }
}

// The plan that was chosen, from the front of each buffer on: two, as `plan` is lent them.
pub(crate) fn put_plan<P: Part>(
    part: &mut P,
    write: Write<'_>,
    choice: &Choice,
    steps: &mut [Step],
    data: &mut [u8],
)
    requires fitting { Fitting (P.Part.meaning part.old) write.address write.bytes.now }
    requires chosen { Chosen (P.Part.meaning part.old) write.address write.bytes.now choice.now }
    ensures looked { LookedBy P.Part (for_steps (P.Part.meaning part.old) write.entry.address write.entry.bytes.now) part.old part.new }
    ensures laid { Laid (plan_list (P.Part.meaning part.old) write.entry.address write.entry.bytes.now) steps.old steps.new «data».old «data».new }
{
    let mut sheet = Sheet::new(steps, data);
    put_choice(part, write, choice, &mut sheet);
}
