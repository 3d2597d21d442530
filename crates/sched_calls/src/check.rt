//! The test of a flow's parameters.

ghost use Rattle.std.specs.Prelude.{◌≡◌, IfOk, IfErr, [], ◌∷◌, IsTrue, MatchResult, false, if◌then◌else◌};
ghost use Rattle.sched_calls.specs.FlowSpec.{first_fault, first_fault_of, is_periodic, interval_of, interval_faults};

use crate::MAX_GRANTS;
use crate::spec::{FlowFault, FlowSpec};
use minislots::Checked;

// The fault where what is demanded isn't met.
fn require(is_met: bool, fault: FlowFault) -> Result<(), FlowFault>
    ensures { MatchResult result (λ _. IsTrue is_met) (λ e. (is_met ≡ false) × (e ≡ fault)) }
{
    if is_met { Ok(()) } else { Err(fault) }
}

impl FlowSpec {
    /// Whether a flow of this channel may have the parameters. Otherwise the first reason why not, in
    /// the order of [`FlowFault`].
    #[tactic(auto, using(crate::proofs::Faults::first_fault_by_groups))]
    pub fn check(&self, config: &Checked) -> Result<(), FlowFault>
        ensures ok { IfOk result (λ _. first_fault config.now self.now ≡ None) }
        ensures err { IfErr result (λ fault. first_fault config.now self.now ≡ Some fault) }
    {
        self.check_size(config)?;
        self.check_interval(config)?;
        self.check_priority(config)?;
        self.check_burst(config)?;
        self.check_grants(config)?;
        self.check_reserved(config)
    }

    // The size of an unsolicited grant: some bytes, in a burst that fits behind the request region.
    fn check_size(&self, config: &Checked) -> Result<(), FlowFault>
        ensures ok { IfOk result
            (λ _. first_fault_of config.now self.now (FlowFault.Size ∷ []) ≡ None) }
        ensures err { IfErr result
            (λ e. first_fault_of config.now self.now (FlowFault.Size ∷ []) ≡ Some e) }
    {
        match *self {
            FlowSpec::Unsolicited { size, .. } => {
                let room = u64::from(config.frame() - config.req_slots());
                require(
                    0 < size && config.slots_for_unsolicited(size) <= room,
                    FlowFault::Size,
                )
            }
            _ => Ok(()),
        }
    }

    // The nominal interval of a periodic flow: whole minislots, whole frames, and a part of the cycle.
    fn check_interval(&self, config: &Checked) -> Result<(), FlowFault>
        ensures ok { IfOk result (λ _. first_fault_of config.now self.now interval_faults ≡ None) }
        ensures err { IfErr result
            (λ e. first_fault_of config.now self.now interval_faults ≡ Some e) }
    {
        let Some(micros) = self.interval_us() else {
            return Ok(());
        };
        let Some(slots) = config.slots_of_micros(micros) else {
            return Err(FlowFault::IntervalNotWhole);
        };
        let frame = u64::from(config.frame());
        require(
            0 < slots && slots % frame == 0,
            FlowFault::IntervalNotFrames,
        )?;
        require(
            u64::from(config.cycle()) % (slots / frame) == 0,
            FlowFault::IntervalNotInCycle,
        )
    }

    // The priority of a best effort flow.
    fn check_priority(&self, config: &Checked) -> Result<(), FlowFault>
        ensures ok { IfOk result
            (λ _. first_fault_of config.now self.now (FlowFault.Priority ∷ []) ≡ None) }
        ensures err { IfErr result
            (λ e. first_fault_of config.now self.now (FlowFault.Priority ∷ []) ≡ Some e) }
    {
        match *self {
            FlowSpec::BestEffort { priority, .. } => require(priority <= 7, FlowFault::Priority),
            _ => Ok(()),
        }
    }

    // The burst of a flow with a rate ceiling: at least the quantum.
    fn check_burst(&self, config: &Checked) -> Result<(), FlowFault>
        ensures ok { IfOk result
            (λ _. first_fault_of config.now self.now (FlowFault.Burst ∷ []) ≡ None) }
        ensures err { IfErr result
            (λ e. first_fault_of config.now self.now (FlowFault.Burst ∷ []) ≡ Some e) }
    {
        require(
            !self.takes_requests() || self.rate() == 0 || config.quantum() <= self.burst(),
            FlowFault::Burst,
        )
    }

    // The grants per interval of an unsolicited flow: one at least, and no more than a flow may have.
    fn check_grants(&self, config: &Checked) -> Result<(), FlowFault>
        ensures ok { IfOk result
            (λ _. first_fault_of config.now self.now (FlowFault.Grants ∷ []) ≡ None) }
        ensures err { IfErr result
            (λ e. first_fault_of config.now self.now (FlowFault.Grants ∷ []) ≡ Some e) }
    {
        match *self {
            FlowSpec::Unsolicited { grants, .. } => {
                require(0 < grants && grants <= MAX_GRANTS, FlowFault::Grants)
            }
            _ => Ok(()),
        }
    }

    // The burst of a reservation: at least the quantum.
    fn check_reserved(&self, config: &Checked) -> Result<(), FlowFault>
        ensures ok { IfOk result
            (λ _. first_fault_of config.now self.now (FlowFault.Reserved ∷ []) ≡ None) }
        ensures err { IfErr result
            (λ e. first_fault_of config.now self.now (FlowFault.Reserved ∷ []) ≡ Some e) }
    {
        require(
            self.reserved() == 0 || config.quantum() <= self.reserved_burst(),
            FlowFault::Reserved,
        )
    }

    // The nominal interval of a periodic flow, in microseconds.
    fn interval_us(&self) -> Option<u32>
        ensures { result ≡ (if is_periodic self.now then Some (interval_of self.now) else None) }
    {
        match *self {
            FlowSpec::Unsolicited { interval_us, .. } | FlowSpec::Polled { interval_us, .. } => {
                Some(interval_us)
            }
            FlowSpec::BestEffort { .. } => None,
        }
    }
}
