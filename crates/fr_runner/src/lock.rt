// The machine under the lock of a run, tied to the run that it is of.
ghost use Rattle.std.specs.Prelude.{◌≡◌, ◌≢◌, ℕ, List, [], IfOk, IfErr};
ghost use Rattle.std.specs.Option.{ForSome};
ghost use Rattle.fr_program.specs.Program.{Program};
ghost use Rattle.fr_runner.specs.declared.fault.RunFault.TheVariants.{Polls, Spent, NoActor};

use crate::fault::RunFault;
use crate::machine::Machine;
use fr_program::ActorId;
use std::marker::{Brand, PhantomData};

/// The run that a locked machine is of: its application, its words and all its polls.
pub(crate) trait Course {
    ghost app: { Program };

    ghost words: { List ℕ };

    ghost polls: { ℕ };
}

impl Course for Brand {
    ghost app = { record { variables = []; objects = []; actors = [] } };

    ghost words = { [] };

    ghost polls = { 0 };
}

/// What lies under the lock: the machine, and a fault that stops all actors at their next turn.
#[derive(Drop)]
pub(crate) struct Locked<'a, K: Course> {
    machine: Machine<'a>,
    stop: Option<RunFault>,
    of: PhantomData<K>,
    ghost of_app: { machine.approved.app ≡ K.app },
    ghost of_words: { machine.words ≡ K.words },
    ghost of_polls: { machine.polls ≡ K.polls },
    ghost stops: { ForSome stop (λ f. (f ≢ Polls) × (f ≢ Spent) × (f ≢ NoActor)) },
}

impl<'a, K: Course> Locked<'a, K> {
    /// The machine, with nothing that stops it.
    pub(crate) fn new(machine: Machine<'a>) -> Locked<'a, K>
        requires app { machine.approved.app ≡ K.app }
        requires words { machine.words ≡ K.words }
        requires polls { machine.polls ≡ K.polls }
    {
        Locked {
            machine,
            stop: None,
            of: PhantomData,
        }
    }

    /// One turn of the actor, where it isn't done, a poll is left and nothing stops it. Answers
    /// whether it may have another one.
    pub(crate) fn turn(&mut self, actor: ActorId) -> bool {
        if self.stop.is_some() || self.machine.left() == 0 || !self.machine.waits(actor) {
            return false;
        }
        match self.machine.poll(actor) {
            Ok(_) => true,
            Err(fault) => {
                self.stop = Some(fault);
                false
            }
        }
    }

    /// Stops all actors at their next turn.
    pub(crate) fn stop(&mut self) {
        self.stop = Some(RunFault::Threads);
    }

    /// The machine, or the fault that stopped it.
    pub(crate) fn into_machine(self) -> Result<Machine<'a>, RunFault>
        ensures app { IfOk result (λ m. m.approved.app ≡ K.app) }
        ensures words { IfOk result (λ m. m.words ≡ K.words) }
        ensures polls { IfOk result (λ m. m.polls ≡ K.polls) }
        ensures fault { IfErr result (λ f. (f ≢ Polls) × (f ≢ Spent) × (f ≢ NoActor)) }
    {
        let Locked {
            machine,
            stop,
            of: _,
        } = self;
        match stop {
            None => Ok(machine),
            Some(fault) => Err(fault),
        }
    }
}
