//! Latency and accepted traffic against offered load.
ghost use Rattle.std.specs.Prelude.{◌≡◌, ◌≤◌, ◌⊎◌, ◌++◌, IfErr, IfOk, IsOkUnless, OnOk, Some, length, string_bytes};
ghost use Rattle.lab_tasks.specs.Added.{Adds};
ghost use Rattle.lab_tasks.specs.Done.{AreLoads, IsTableGiven};
ghost use Rattle.lab_tasks.specs.Kept.{kept_offer, offer_name, offer_path, rate_name, IsKeptOffer, IsWithOffers};
ghost use Rattle.lab_tasks.specs.LoadPictures.{IsLoadPicture};
ghost use Rattle.lab_tasks.specs.LoadPlans.{IsNoLoadPlan};
ghost use Rattle.lab_tasks.specs.LoadTables.{load_header, load_row};
ghost use Rattle.lab_tasks.specs.Outcomes.{files_of, folder_of};
ghost use Rattle.lab_tasks.specs.Tables.{table_text};
ghost use Rattle.lab_tasks.specs.Words.{text_of};

use crate::end::End;
use crate::load_picture::load_picture;
use crate::load_plan::{LoadPlan, load_plan, offers_of};
use crate::load_points::load_points;
use crate::load_table::{LoadPoint, load_table};
use crate::outcome::{OutFile, Outcome};
use crate::progress::Progress;
use crate::task::{curves, net_name};
use crate::words::LoadWords;
use experiments::{Load, MOST_CYCLES, Offer, project_offered};
use page_map::MAX_K;
use project_book::{Edit, Project};
use project_file::write_project;
use std::alloc::{AllocError, Global};
use std::fmt;
use std::thread::Threads;

/// An offered load as the first words of that name.
#[derive(Clone, Copy)]
struct RateName(Offer);

impl fmt::Display for RateName {
    ghost output = { λ n. Some (rate_name n.0) };

    fn fmt<W: fmt::Write>(&self, f: &mut fmt::Formatter<W>) -> fmt::Result {
        let (k, hot, rate) = (self.0.load.k, self.0.load.hot, self.0.rate);
        write!(f, "k{k}-hot{hot}-rate{rate}")
    }
}

/// An offered load as the name of its project file.
#[derive(Clone, Copy)]
struct OfferName(Offer);

impl fmt::Display for OfferName {
    ghost output = { λ n. Some (offer_name n.0) };

    fn fmt<W: fmt::Write>(&self, f: &mut fmt::Formatter<W>) -> fmt::Result {
        let rate = RateName(self.0);
        let net = net_name(self.0.load);
        let seed = self.0.load.seed;
        write!(f, "{rate}-{net}-seed{seed}.toml")
    }
}

/// The name of an offered load's project file.
fn path_of(alloc: Global, folder: &str, offer: Offer) -> Result<String, AllocError>
    ensures { IfOk result (λ name. string_bytes name ≡ offer_path folder.now offer) }
{
    let name = OfferName(offer);
    format!(in alloc; "{folder}/{name}")
}

/// The project of an offered load with combining at the stages that it has: a file names no others.
fn kept_offer<'a>(alloc: Global, offer: Offer) -> Result<Project, End<'a>>
    ensures kept { IfOk result (λ project. project ≡ kept_offer offer) }
    ensures memory { IsOkUnless result End.Memory }
{
    if offer.load.k > MAX_K || offer.load.cycles > MOST_CYCLES {
        return Err(End::Memory);
    }
    let plain = Offer {
        load: Load {
            combine: false,
            ..offer.load
        },
        ..offer
    };
    let mut project = project_offered(alloc, plain)?;
    if !offer.load.combine {
        return Ok(project);
    }
    for stage in 0..offer.load.k {
        project = match project.apply(Edit::Combine { stage, on: true }) {
            Ok((edited, _changed)) => edited,
            Err(_) => return Err(End::Memory),
        };
    }
    Ok(project)
}

/// Adds the project file of each offered load.
fn keep_offers<'a>(
    alloc: Global,
    outcome: &mut Outcome,
    folder: &str,
    offers: &[Offer],
) -> Result<(), End<'a>>
    ensures printed { OnOk result (outcome.new.printed.items ≡ outcome.old.printed.items) }
    ensures files { OnOk result (Adds (IsKeptOffer folder.now) offers.now (files_of outcome.old) (files_of outcome.new)) }
    ensures folder { OnOk result (folder_of outcome.new ≡ Some folder.now) }
    ensures memory { IsOkUnless result End.Memory }
{
    outcome.folder = Some(String::from_str(alloc, folder)?);
    for offer in offers {
        let project = kept_offer(alloc, *offer)?;
        let name = path_of(alloc, folder, *offer)?;
        let bytes = write_project(alloc, &project)?;
        outcome.files.push(OutFile { name, bytes })?;
    }
    Ok(())
}

/// Adds the project files of some offered loads, where they are wanted.
fn with_offers<'a>(
    alloc: Global,
    words: &LoadWords<'a>,
    offers: &[Offer],
    outcome: Outcome,
) -> Result<Outcome, End<'a>>
    ensures kept { IfOk result (IsWithOffers (text_of words.now.curves.keep) offers.now outcome) }
    ensures memory { IsOkUnless result End.Memory }
{
    let mut outcome = outcome;
    if let Some(folder) = words.curves.keep {
        keep_offers(alloc, &mut outcome, folder, offers)?;
    }
    Ok(outcome)
}

fn load_drawn<'a>(
    alloc: Global,
    words: &LoadWords<'a>,
    plan: &LoadPlan,
    points: &[LoadPoint],
) -> Result<Outcome, AllocError>
    requires few { length plan.now.hot.items ≤ 7 }
    requires span { (plan.now.from ≤ plan.now.to) × (plan.now.to ≤ 100) }
    requires step { (1 ≤ plan.now.step) × (plan.now.step ≤ 100) }
    requires seeds { plan.now.seeds ≤ 20 }
    ensures { IfOk result (IsTableGiven words.now.curves (IsLoadPicture plan.now points.now) (table_text load_header load_row points.now)) }
{
    let table = load_table(alloc, points)?;
    let picture = load_picture(alloc, plan, points)?;
    curves(alloc, &words.curves, table, picture)
}

/// Measures and draws what the words ask for.
pub(crate) fn load<'a, T: Threads + Sync, P: Progress>(
    rt: &T,
    alloc: Global,
    words: &LoadWords<'a>,
    progress: &mut P,
) -> Result<Outcome, End<'a>>
    ensures done { IfOk result (AreLoads words.now) }
    ensures refused { IfErr result (λ end. (end ≡ End.Memory) ⊎ IsNoLoadPlan words.now end) }
{
    let plan = load_plan(alloc, words)?;
    let offers = offers_of(alloc, &plan)?;
    let points = load_points(rt, alloc, offers.as_slice(), progress)?;
    let outcome = load_drawn(alloc, words, &plan, points.as_slice())?;
    with_offers(alloc, words, offers.as_slice(), outcome)
}
