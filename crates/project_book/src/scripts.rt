//! The processors' scripts.
ghost use Rattle.std.specs.Prelude.{◌≡◌, ◌≢◌, ◌<◌, ◌≤◌, ◌↔◌, IsTrue, IfOk, OnOk, OnErr, IfSome, [], map, length, take, slice_get, slice_set, replicate};
ghost use Rattle.std.specs.Arc.{arc_value};
ghost use Rattle.project_book.specs.Scripts.{put_entry, script_of, IsEntry, IsScript};
ghost use Rattle.project_book.specs.Limits.{script_entries};

use crate::limits::SCRIPT_ENTRIES;
use grid_law::NoMemory;
use omega_net::ScriptEntry;
use std::alloc::Global;
use std::marker::Model;
use std::sync::Arc;

/// A processor's script: at most 4,096 entries, each within the limits.
#[derive(Drop)]
pub struct Script {
    entries: Vec<ScriptEntry>,
}

impl Model for Script {
    ghost use Rattle.std.specs.Prelude.{List};
    ghost use Rattle.omega_net.specs.declared.script.ScriptEntry.{ScriptEntry as Line};

    ghost Value = { List Line };

    ghost use Rattle.project_book.specs.Scripts.{IsScript};

    ghost view = { λ s. s.entries.items };

    ghost invariant = { λ s. IsScript s.entries.items };
}

/// The scripts by processor. Those that an edit leaves alone are shared with its copy.
pub struct Scripts {
    scripts: Vec<Arc<Script>>,
}

// Not derived, as for a project.
impl Drop for Scripts {
    fn drop(self) {
        let Scripts { scripts } = self;
        drop(scripts);
    }
}

impl Model for Scripts {
    ghost use Rattle.std.specs.Prelude.{List, map};
    ghost use Rattle.std.specs.Arc.{arc_value};
    ghost use Rattle.omega_net.specs.declared.script.ScriptEntry.{ScriptEntry as Line};

    ghost Value = { List (List Line) };

    ghost view = { λ s. map arc_value s.scripts.items };
}

impl Script {
    /// No entries. Takes no memory.
    pub fn new(alloc: Global) -> Script
        ensures { result ≡ [] }
    {
        Script {
            entries: Vec::new(alloc),
        }
    }

    /// Whether two scripts are the same.
    pub fn same(&self, other: &Script) -> bool
        ensures { IsTrue result ↔ (self.now ≡ other.now) }
    {
        same_entries(&self.entries, &other.entries)
    }

    /// How many entries there are.
    pub fn length(&self) -> u32
        ensures length { result ≡ length self.now }
        ensures few { result ≤ script_entries }
    {
        self.entries.len() as u32
    }

    /// The entry at an index, None exactly from the length on.
    pub fn entry(&self, index: u32) -> Option<ScriptEntry>
        ensures entry { result ≡ slice_get self.now index }
        ensures within { IfSome result IsEntry }
    {
        self.entries.get(index as usize).copied()
    }

    /// The script with this entry at an index, which is within it or at its end. Copies the script.
    ///
    /// # Errors
    ///
    /// Where a growth was refused. The script is as before.
    pub fn with_entry(
        &self,
        alloc: Global,
        index: u32,
        entry: ScriptEntry,
    ) -> Result<Script, NoMemory>
        requires there { index ≤ length self.now }
        requires room { index ≡ length self.now → index ≢ script_entries }
        requires entry { IsEntry entry }
        ensures { IfOk result (λ s. s ≡ put_entry self.now index entry) }
    {
        let index = index as usize;
        let mut entries = Vec::with_capacity(alloc, self.entries.len() + 1)?;
        entries.extend_from_slice(&self.entries[..index])?;
        entries.push(entry)?;
        if index < self.entries.len() {
            entries.extend_from_slice(&self.entries[index + 1..])?;
        }
        Ok(Script { entries })
    }

    /// The first entries of the script. Copies them.
    ///
    /// # Errors
    ///
    /// Where a growth was refused. The script is as before.
    pub fn cut(&self, alloc: Global, count: u32) -> Result<Script, NoMemory>
        requires { count ≤ length self.now }
        ensures { IfOk result (λ s. s ≡ take count self.now) }
    {
        let entries = Vec::from_slice(alloc, &self.entries[..count as usize])?;
        Ok(Script { entries })
    }
}

impl Scripts {
    /// As many scripts with no entries.
    ///
    /// # Errors
    ///
    /// Where a growth was refused. What was taken is given back.
    pub fn new(alloc: Global, count: u32) -> Result<Scripts, NoMemory>
        ensures { IfOk result (λ s. s ≡ replicate count []) }
    {
        let empty = Arc::new(alloc, Script::new(alloc))?;
        let mut scripts = Vec::with_capacity(alloc, count as usize)?;
        for _ in 0..count {
            scripts.push(Arc::try_clone(&empty)?)?;
        }
        Ok(Scripts { scripts })
    }

    /// Whether all scripts are the same.
    pub fn same(&self, other: &Scripts) -> bool
        ensures { IsTrue result ↔ (self.now ≡ other.now) }
    {
        same_scripts(&self.scripts, &other.scripts)
    }

    /// A processor's script.
    pub fn script(&self, proc: u32) -> &Script
        requires { proc < length self.now }
        ensures { result.now ≡ script_of self.now proc }
    {
        &self.scripts[proc as usize]
    }

    /// The scripts where a processor's is another one. Takes another owner of each that stays.
    ///
    /// # Errors
    ///
    /// Where a growth was refused, or a script has as many owners as can be counted. The scripts are as
    /// before.
    pub fn with_script(&self, alloc: Global, proc: u32, script: Script) -> Result<Scripts, NoMemory>
        requires { proc < length self.now }
        ensures { IfOk result (λ s. s ≡ slice_set self.now proc script) }
    {
        let script = Arc::new(alloc, script)?;
        let mut scripts = share_each(alloc, &self.scripts)?;
        scripts[proc as usize] = script;
        Ok(Scripts { scripts })
    }

    /// Gives a processor this script. The scripts are as before where memory is refused.
    ///
    /// # Errors
    ///
    /// Where a growth was refused. The scripts are as before, and the entries are dropped.
    pub fn set(
        &mut self,
        alloc: Global,
        proc: u32,
        entries: Vec<ScriptEntry>,
    ) -> Result<(), NoMemory>
        requires there { proc < length self.old }
        requires script { IsScript entries.items }
        ensures ok { OnOk result (self.new ≡ slice_set self.old proc entries.items) }
        ensures err { OnErr result (self.new ≡ self.old) }
    {
        let owner = Arc::new(alloc, Script { entries })?;
        self.scripts[proc as usize] = owner;
        Ok(())
    }
}

fn same_entries(entries: &[ScriptEntry], others: &[ScriptEntry]) -> bool
    ensures { IsTrue result ↔ (entries.now ≡ others.now) }
{
    entries == others
}

fn same_scripts(scripts: &[Arc<Script>], others: &[Arc<Script>]) -> bool
    ensures { IsTrue result ↔ (map arc_value scripts.now ≡ map arc_value others.now) }
{
    if scripts.len() != others.len() {
        return false;
    }
    for proc in 0..scripts.len() {
        if !same_script(scripts, others, proc) {
            return false;
        }
    }
    true
}

fn same_script(scripts: &[Arc<Script>], others: &[Arc<Script>], proc: usize) -> bool
    requires here { proc < length scripts.now }
    requires there { proc < length others.now }
    ensures { IsTrue result ↔ (script_of (map arc_value scripts.now) proc ≡ script_of (map arc_value others.now) proc) }
{
    scripts[proc].same(&others[proc])
}

fn share_each(alloc: Global, scripts: &[Arc<Script>]) -> Result<Vec<Arc<Script>>, NoMemory>
    ensures { IfOk result (λ v. map arc_value v.items ≡ map arc_value scripts.now) }
{
    let mut shared = Vec::with_capacity(alloc, scripts.len())?;
    for script in scripts {
        shared.push(Arc::try_clone(script)?)?;
    }
    Ok(shared)
}
