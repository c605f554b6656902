//! The virtual processors of a board, and how many of them a guest may connect.

ghost use Rattle.std.specs.Prelude.{◌≡◌, ◌<◌, ◌≤◌, ◌^◌, ◌↔◌, ◌∷◌, ℕ, List, IfOk, IsTrue};
ghost use Rattle.std.specs.Prelude.{length, pos, slice_set, vec_len};
ghost use Rattle.xv_model.specs.declared.entries.Entry.{Entry};
ghost use Rattle.xv_model.specs.declared.operations.Op.TheVariants.{VpSet};
ghost use Rattle.xv_model.specs.declared.outcomes.Outcome.TheVariants.{Code};
ghost use Rattle.xv_model.specs.account.Start.{Start};
ghost use Rattle.xv_model.specs.call.Checks.{is_target};
ghost use Rattle.xv_model.specs.device.Checks.{some_below, some_connected as some_is_connected};
ghost use Rattle.xv_model.specs.processor.Registers.{stored_cppr as stored_cppr_of};
ghost use Rattle.nvt_backlog.specs.Vps.{AreConnected, AreFirst, connected, vp_in, with_state};
ghost use Rattle.nvt_backlog.specs.Accounts.{StandFor};

use crate::vp::{Vp, first_vp};
use std::alloc::Global;
use std::marker::Model;
use xv_base::NoMemory;
use xv_model::board::Board;
use xv_model::kvm::errors::EINVAL;

/// The greatest priority, which is the least urgent.
const MOST_PRIORITY: u8 = 7;

/// CPPR where a value that is no priority is stored: each priority is less.
const OPEN: u8 = 0xff;

/// CPPR as it is stored: a value above 7 becomes 0xff.
fn stored_cppr(value: u8) -> u8
    ensures { result ≡ stored_cppr_of value }
{
    if value > MOST_PRIORITY { OPEN } else { value }
}

/// The virtual processors of a board, and the number of servers, below which those are that can be connected
/// (KVM_DEV_XIVE_NR_SERVERS). Each call leaves all other processors as they were.
#[derive(Drop)]
pub struct Vps {
    servers: u32,
    vps: Vec<Vp>,
}

impl Model for Vps {
    ghost use Rattle.std.specs.Prelude.{◌<◌, ◌^◌, vec_len};
    ghost use Rattle.nvt_backlog.specs.Vps.{Kept};

    ghost Value = { Kept };

    ghost view = { λ t. record {
      servers = t.servers;
      vps = t.vps.items;
    } };

    ghost invariant = { λ t. vec_len t.vps < 2 ^ 32 };
}

/// The processors of a board at the start.
fn first_vps(alloc: Global, board: &Board) -> Result<Vec<Vp>, NoMemory>
    ensures len { IfOk result (λ v. vec_len v ≡ board.now.limits.processors) }
    ensures few { IfOk result (λ v. vec_len v < 2 ^ 32) }
    ensures items { IfOk result (λ v. AreFirst board.now v.items) }
{
    let mut vps = Vec::with_capacity(alloc, board.limits.processors as usize)?;
    for v in 0..board.limits.processors {
        vps.push(first_vp(board, v))?;
    }
    Ok(vps)
}

impl Vps {
    /// The processors of a board on which nothing has happened: each is saved, and connected unless the board
    /// names it as unconnected; there are as many servers as processors. May return `NoMemory`; no clause
    /// says when.
    pub fn build(alloc: Global, board: &Board) -> Result<Vps, NoMemory>
        ensures servers { IfOk result (λ t. t.servers ≡ board.now.limits.processors) }
        ensures count { IfOk result (λ t. length t.vps ≡ board.now.limits.processors) }
        ensures vps { IfOk result (λ t. AreFirst board.now t.vps) }
    {
        let vps = first_vps(alloc, board)?;
        Ok(Vps {
            servers: board.limits.processors,
            vps,
        })
    }

    /// How many processors there are.
    pub fn count(&self) -> u32
        ensures { result ≡ length self.now.vps }
    {
        self.vps.len() as u32
    }

    /// The number of servers: the processors below it can be connected.
    pub fn servers(&self) -> u32
        ensures { result ≡ self.now.servers }
    {
        self.servers
    }

    /// Sets the number of servers. A processor that is connected stays so, whatever its number.
    pub fn set_servers(&mut self, n: u32)
        ensures servers { self.new.servers ≡ n }
        ensures vps { self.new.vps ≡ self.old.vps }
    {
        self.servers = n;
    }

    /// A processor.
    pub fn get(&self, v: u32) -> Vp
        requires { v < length self.now.vps }
        ensures { result ≡ vp_in self.now.vps v }
    {
        self.vps[v as usize]
    }

    /// Puts a processor in the place of the one with this number.
    pub fn set(&mut self, v: u32, vp: Vp)
        requires { v < length self.old.vps }
        ensures vps { self.new.vps ≡ slice_set self.old.vps v vp }
        ensures servers { self.new.servers ≡ self.old.servers }
    {
        self.vps[v as usize] = vp;
    }

    /// Whether a number is that of a connected processor.
    pub fn is_connected(&self, number: u64) -> bool
        ensures value { (z : Start) (h : List Entry) → length self.now.vps ≡ z.board.limits.processors
            → AreConnected self.now.vps z h → result ≡ is_target z h number }
        ensures processor { IsTrue result → number < length self.now.vps }
    {
        number < self.vps.len() as u64 && self.vps[number as usize].valid
    }

    /// Whether some processor is connected. It looks at each processor, of which a board has at most 64.
    pub fn some_connected(&self) -> bool
        ensures value { result ≡ some_below (λ v. (vp_in self.now.vps v).valid) (length self.now.vps) }
        ensures account { (z : Start) (h : List Entry) → length self.now.vps ≡ z.board.limits.processors
            → AreConnected self.now.vps z h → result ≡ some_is_connected z h }
    {
        let mut some = false;
        for v in 0..self.vps.len() {
            some = self.vps[v].valid || some;
        }
        some
    }

    /// Sets what is saved of a processor: its CPPR, where a value above 7 becomes 0xff, and its IPB. Nothing is in its
    /// backlog then (Linux's arch/powerpc/kvm/book3s_xive_native.c, kvmppc_xive_native_set_vp).
    pub fn set_state(&mut self, v: u32, cppr: u8, ipb: u8)
        requires { v < length self.old.vps }
        ensures vps { self.new.vps ≡ slice_set self.old.vps v (with_state cppr ipb (vp_in self.old.vps v)) }
        ensures servers { self.new.servers ≡ self.old.servers }
        ensures stands { (z : Start) (h : List Entry) (actor : ℕ) → StandFor self.old.vps z h
            → StandFor self.new.vps z (record { actor = actor; op = VpSet v cppr ipb; outcome = Code (pos 0) } ∷ h) }
    {
        let vp = self.vps[v as usize];
        self.vps[v as usize] = Vp {
            cppr: stored_cppr(cppr),
            ipb,
            backlog: 0,
            ..vp
        };
    }

    /// Connects a processor, and answers 0, also where it was connected before; its context stays.
    /// [`xv_model::kvm::errors::EINVAL`] exactly where its number isn't below that of servers (Linux's
    /// arch/powerpc/kvm/book3s_xive_native.c, kvmppc_xive_native_connect_vcpu), and then nothing changes.
    pub fn connect(&mut self, v: u32) -> i32
        requires { v < length self.old.vps }
        ensures refused { (result ≡ EINVAL) ↔ (self.old.servers ≤ v) }
        ensures accepted { (result ≡ pos 0) ↔ (v < self.old.servers) }
        ensures unchanged { self.old.servers ≤ v → self.new ≡ self.old }
        ensures vps { v < self.old.servers →
            self.new.vps ≡ slice_set self.old.vps v (connected (vp_in self.old.vps v)) }
        ensures servers { self.new.servers ≡ self.old.servers }
    {
        if v >= self.servers {
            return EINVAL;
        }
        self.vps[v as usize].valid = true;
        0
    }
}
