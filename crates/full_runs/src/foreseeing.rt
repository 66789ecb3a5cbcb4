//! What follows an event is put on the agenda.
ghost use Rattle.full_runs.specs.Inner.Driving.{IsClusterOn};

use crate::agendas::Agenda;
use crate::outlooks::{
    after_admission, after_grant, first_grant, halves_at, has_room, is_owner, is_task, ready_centre,
};
use full_cluster::{
    Division, FullCluster, FullEvent, FullGift, FullMachine, FullMessage, FullTerms,
};
use gl_base::{MachineNo, NoMemory, ScopeId, Vertex};

impl Agenda {
    /// Puts what follows the event where it happens, and answers whether to try it. A vertex that is
    /// to be admitted goes back into the line where its machine has no room.
    pub(crate) fn foresee(
        &mut self,
        division: &Division<'_>,
        terms: FullTerms,
        cluster: &FullCluster,
        event: FullEvent,
    ) -> Result<bool, NoMemory>
        requires { IsClusterOn division.now cluster.now }
    {
        match event {
            FullEvent::Admit { machine, vertex } => {
                self.foresee_admission(division, terms, cluster, machine, vertex)
            }
            FullEvent::Grant { machine, vertex } => {
                self.foresee_next(after_grant(division, cluster, machine, vertex))
            }
            FullEvent::Send { from, to } => self.foresee_sending(cluster, from, to),
            FullEvent::Deliver { from, to } => self.foresee_delivery(division, cluster, from, to),
            FullEvent::Update { scope } => self.foresee_update(division, cluster, scope),
        }
    }

    /// Puts this, if there is something.
    fn foresee_next(&mut self, next: Option<FullEvent>) -> Result<bool, NoMemory> {
        match next {
            Some(event) => {
                self.put(event)?;
                Ok(true)
            }
            None => Ok(false),
        }
    }

    fn foresee_admission(
        &mut self,
        division: &Division<'_>,
        terms: FullTerms,
        cluster: &FullCluster,
        machine: MachineNo,
        v: Vertex,
    ) -> Result<bool, NoMemory> {
        if !is_task(cluster, machine, v) {
            return Ok(false);
        }
        if !has_room(cluster, terms, machine) {
            self.line_up(machine, v)?;
            return Ok(false);
        }
        self.put(after_admission(division, machine, v))?;
        Ok(true)
    }

    fn foresee_sending(
        &mut self,
        cluster: &FullCluster,
        from: MachineNo,
        to: MachineNo,
    ) -> Result<bool, NoMemory> {
        match cluster.machine(from) {
            Some(machine) if machine.out.waits(to) => {
                self.put(FullEvent::Deliver { from, to })?;
                Ok(true)
            }
            _ => Ok(false),
        }
    }

    fn foresee_delivery(
        &mut self,
        division: &Division<'_>,
        cluster: &FullCluster,
        from: MachineNo,
        to: MachineNo,
    ) -> Result<bool, NoMemory> {
        let Some(links) = cluster.links_from(from) else {
            return Ok(false);
        };
        let Some(message) = links.front(to) else {
            return Ok(false);
        };
        match message {
            FullMessage::Gather { centre, .. } => self.put(first_grant(division, to, *centre))?,
            FullMessage::Home { scope, .. } => self.put(FullEvent::Update { scope: *scope })?,
            FullMessage::Give { gift, .. } => self.foresee_gift(cluster, to, gift)?,
        }
        Ok(true)
    }

    /// The locks of the vertices that are given are free, and those that wake are to be admitted.
    fn foresee_gift(
        &mut self,
        cluster: &FullCluster,
        to: MachineNo,
        gift: &FullGift,
    ) -> Result<(), NoMemory> {
        for pair in &gift.numbers {
            self.put(FullEvent::Grant {
                machine: to,
                vertex: pair.0,
            })?;
        }
        for u in &gift.wakes {
            if !is_task(cluster, to, *u) {
                self.put(FullEvent::Admit {
                    machine: to,
                    vertex: *u,
                })?;
            }
        }
        Ok(())
    }

    fn foresee_update(
        &mut self,
        division: &Division<'_>,
        cluster: &FullCluster,
        scope: ScopeId,
    ) -> Result<bool, NoMemory>
        requires { IsClusterOn division.now cluster.now }
    {
        let Some(v) = ready_centre(division, cluster, scope) else {
            return Ok(false);
        };
        self.put(FullEvent::Grant {
            machine: scope.home,
            vertex: v,
        })?;
        for half in halves_at(division, v) {
            self.foresee_change(division, cluster, scope.home, half.other)?;
        }
        Ok(true)
    }

    /// The lock of a neighbour is free after the update at this home, and the neighbour may be woken.
    fn foresee_change(
        &mut self,
        division: &Division<'_>,
        cluster: &FullCluster,
        home: MachineNo,
        x: Vertex,
    ) -> Result<(), NoMemory> {
        if !is_owner(division, home, x) {
            return Ok(());
        }
        self.put(FullEvent::Grant {
            machine: home,
            vertex: x,
        })?;
        if is_task(cluster, home, x) {
            return Ok(());
        }
        self.remember_asleep(x)
    }

    /// Puts what follows an event that was tried, as the cluster is now: a machine admits the next
    /// in its line while it has room, and an update sends what it gives and wakes others.
    pub(crate) fn follow(
        &mut self,
        terms: FullTerms,
        cluster: &FullCluster,
        event: FullEvent,
    ) -> Result<(), NoMemory> {
        match event {
            FullEvent::Admit { machine, .. } => self.fill(terms, cluster, machine),
            FullEvent::Update { scope } => {
                self.admit_woken(cluster, scope.home)?;
                self.send_all(cluster, scope.home, terms.machines)?;
                self.fill(terms, cluster, scope.home)
            }
            _ => Ok(()),
        }
    }

    /// The next in the line of a machine is to be admitted, if it has room.
    fn fill(
        &mut self,
        terms: FullTerms,
        cluster: &FullCluster,
        machine: MachineNo,
    ) -> Result<(), NoMemory> {
        if has_room(cluster, terms, machine) {
            self.admit_next(machine)?;
        }
        Ok(())
    }

    /// Those that were no tasks before the update, and are now, are to be admitted.
    fn admit_woken(&mut self, cluster: &FullCluster, home: MachineNo) -> Result<(), NoMemory> {
        for _ in 0..self.asleep_count() {
            self.admit_if_woken(cluster, home)?;
        }
        Ok(())
    }

    fn admit_if_woken(&mut self, cluster: &FullCluster, home: MachineNo) -> Result<(), NoMemory> {
        let Some(vertex) = self.next_asleep() else {
            return Ok(());
        };
        if !is_task(cluster, home, vertex) {
            return Ok(());
        }
        self.put(FullEvent::Admit {
            machine: home,
            vertex,
        })
    }

    /// Each outbox of the machine that has a message sends it.
    fn send_all(
        &mut self,
        cluster: &FullCluster,
        from: MachineNo,
        machines: u16,
    ) -> Result<(), NoMemory> {
        let Some(machine) = cluster.machine(from) else {
            return Ok(());
        };
        for q in 0..machines {
            self.send_if(machine, from, MachineNo(q))?;
        }
        Ok(())
    }

    fn send_if(
        &mut self,
        machine: &FullMachine,
        from: MachineNo,
        to: MachineNo,
    ) -> Result<(), NoMemory> {
        if machine.out.waits(to) {
            self.put(FullEvent::Send { from, to })?;
        }
        Ok(())
    }

    /// Whatever is on its way is to be sent and received.
    pub(crate) fn find_messages(
        &mut self,
        cluster: &FullCluster,
        machines: u16,
    ) -> Result<(), NoMemory> {
        for a in 0..machines {
            self.deliver_all(cluster, MachineNo(a), machines)?;
            self.send_all(cluster, MachineNo(a), machines)?;
        }
        Ok(())
    }

    /// Each link from the machine that has a message delivers it.
    fn deliver_all(
        &mut self,
        cluster: &FullCluster,
        from: MachineNo,
        machines: u16,
    ) -> Result<(), NoMemory> {
        let Some(links) = cluster.links_from(from) else {
            return Ok(());
        };
        for q in 0..machines {
            let to = MachineNo(q);
            if links.waits(to) {
                self.put(FullEvent::Deliver { from, to })?;
            }
        }
        Ok(())
    }
}
