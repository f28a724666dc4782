//! `check`: all rules that the staged facts break.
ghost use Rattle.sr_script.specs.declared.command.Command.TheVariants.{Check};
ghost use Rattle.sr_run.specs.Handlers.{CarriesOut};

use crate::session::DomainSession;
use crate::stop::Stop;
use sr_print::put_check;
use sr_rules::broken_rules;

impl DomainSession {
    /// `check`: appends all rules that the tentative facts break, each with the least that breaks it. Nothing changes.
    pub(crate) fn check(&self, out: &mut Vec<u8>) -> Result<(), Stop>
        ensures { CarriesOut Check self.now self.now out.old.items out.new.items result }
    {
        let rules = broken_rules(self.alloc, self.editor.tentative())?;
        put_check(&rules, out)?;
        Ok(())
    }
}
