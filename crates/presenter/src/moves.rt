//! The four moves of a context: restore, push, pull, save.

ghost use Rattle.std.specs.Prelude.{◌≡◌, ◌≢◌, ◌<◌, ◌↔◌, ℕ, Option, Some, None, length, slice_set, OnOk, OnErr};
ghost use Rattle.xv_model.specs.declared.outcomes.MoveRefused.{MoveRefused};
ghost use Rattle.xv_model.specs.declared.outcomes.MoveRefused.TheVariants.{NotValid, NoContext};
ghost use Rattle.xv_model.specs.declared.outcomes.Phase.TheVariants.{On, Pulled};
ghost use Rattle.xv_model.specs.processor.Phases.{cam_of};
ghost use Rattle.nvt_backlog.specs.Vps.{vp_in};
ghost use Rattle.thread_context.specs.Rings.{ring_in, free_ring, loaded, pulled, pushed};
ghost use Rattle.presenter.specs.Contexts.{AreFit, IsUser, KeepsPending, Uses, named_by};
ghost use Rattle.presenter.specs.Moves.{on, pulled_from, push_refused, restore_refused, restored, save_refused, saved_from};

use nvt_backlog::{Vp, Vps};
use thread_context::Rings;
use xv_model::outcomes::{MoveRefused, Phase};
use xv_model::tima::{CAM_FIRST, CAM_VALID};

/// The processor that uses a thread.
fn user(vps: &Vps, t: u32) -> Option<u32>
    ensures some { (v : ℕ) → result ≡ Some v → Uses vps.now.vps v t }
    ensures none { result ≡ None → IsUser vps.now.vps t None }
{
    for v in 0..vps.count() {
        let used = match vps.get(v).phase {
            Phase::Saved => false,
            Phase::Restored { t: at } => at == t,
            Phase::On { t: at } => at == t,
            Phase::Pulled { t: at } => at == t,
        };
        if used {
            return Some(v);
        }
    }
    None
}

/// Moves the saved CPPR and IPB of a processor to the ring of a thread that is free (the first store of Linux's
/// arch/powerpc/kvm/book3s_xive.c, kvmppc_xive_push_vcpu). Refused, by the first of these that holds: `NotValid`
/// where it isn't connected, `VpBusy` where it isn't saved, `RingBusy` where a processor uses the thread, which it
/// names. Nothing changes then.
pub fn restore(vps: &mut Vps, rings: &mut Rings, v: u32, t: u32) -> Result<(), MoveRefused>
    requires processor { v < length vps.old.vps }
    requires thread { t < length rings.old }
    requires fit { AreFit vps.old.vps rings.old }
    ensures refused { (u : Option ℕ) (why : MoveRefused) → IsUser vps.old.vps t u →
        (result ≡ Err why) ↔ (restore_refused (vp_in vps.old.vps v).valid (vp_in vps.old.vps v).phase u ≡ Some why) }
    ensures unchanged_vps { OnErr result (vps.new ≡ vps.old) }
    ensures unchanged_rings { OnErr result (rings.new ≡ rings.old) }
    ensures vps { OnOk result (vps.new.vps ≡ slice_set vps.old.vps v (restored t (vp_in vps.old.vps v))) }
    ensures rings { OnOk result (rings.new ≡
        slice_set rings.old t (loaded (vp_in vps.old.vps v).cppr (vp_in vps.old.vps v).ipb)) }
    ensures servers { vps.new.servers ≡ vps.old.servers }
    ensures processors { length vps.new.vps ≡ length vps.old.vps }
    ensures threads { length rings.new ≡ length rings.old }
    ensures fit { AreFit vps.new.vps rings.new }
    ensures pending { KeepsPending vps.old.vps rings.old vps.new.vps rings.new }
{
    let found = vps.get(v);
    if !found.valid {
        return Err(MoveRefused::NotValid);
    }
    match found.phase {
        Phase::Saved => {}
        phase => return Err(MoveRefused::VpBusy { phase }),
    }
    if let Some(vp) = user(vps, t) {
        return Err(MoveRefused::RingBusy { vp });
    }
    rings.load(t, found.cppr, found.ipb);
    vps.set(
        v,
        Vp {
            phase: Phase::Restored { t },
            cppr: 0,
            ipb: 0,
            ..found
        },
    );
    Ok(())
}

/// Moves CPPR and IPB of a processor that was pulled from a thread to what is saved of it; the thread is free then
/// (the second load of Linux's arch/powerpc/kvm/book3s_xive.c, kvmppc_xive_pull_vcpu). Refused, by the first of
/// these that holds: `NotValid` where it isn't connected, `NotPulled` where it wasn't pulled. Nothing changes then.
pub fn save(vps: &mut Vps, rings: &mut Rings, v: u32) -> Result<(), MoveRefused>
    requires processor { v < length vps.old.vps }
    requires fit { AreFit vps.old.vps rings.old }
    ensures refused { (why : MoveRefused) →
        (result ≡ Err why) ↔ (save_refused (vp_in vps.old.vps v).valid (vp_in vps.old.vps v).phase ≡ Some why) }
    ensures unchanged_vps { OnErr result (vps.new ≡ vps.old) }
    ensures unchanged_rings { OnErr result (rings.new ≡ rings.old) }
    ensures vps { (t : ℕ) → (vp_in vps.old.vps v).phase ≡ Pulled t → OnOk result (vps.new.vps ≡
        slice_set vps.old.vps v (saved_from (ring_in rings.old t) (vp_in vps.old.vps v))) }
    ensures rings { (t : ℕ) → (vp_in vps.old.vps v).phase ≡ Pulled t → OnOk result (rings.new ≡
        slice_set rings.old t free_ring) }
    ensures servers { vps.new.servers ≡ vps.old.servers }
    ensures processors { length vps.new.vps ≡ length vps.old.vps }
    ensures threads { length rings.new ≡ length rings.old }
    ensures fit { AreFit vps.new.vps rings.new }
    ensures pending { KeepsPending vps.old.vps rings.old vps.new.vps rings.new }
{
    let found = vps.get(v);
    if !found.valid {
        return Err(MoveRefused::NotValid);
    }
    let t = match found.phase {
        Phase::Pulled { t } => t,
        phase => return Err(MoveRefused::NotPulled { phase }),
    };
    let ring = rings.get(t);
    rings.clear(t);
    vps.set(
        v,
        Vp {
            phase: Phase::Saved,
            cppr: ring.cppr,
            ipb: ring.ipb,
            ..found
        },
    );
    Ok(())
}

/// The processor whose valid CAM word this is.
fn named(vps: &Vps, cam: u32) -> Option<u32>
    requires few { length vps.now.vps < 0x4000_0000 }
    ensures { result ≡ named_by (length vps.now.vps) cam }
{
    let first = CAM_VALID + CAM_FIRST;
    if cam >= first && cam < first + vps.count() {
        Some(cam - first)
    } else {
        None
    }
}

/// Pushes the context of a processor that was restored on a thread: its CAM word becomes valid, and what came for
/// it meanwhile is taken into IPB (QEMU's hw/intc/xive.c, xive_tm_push_os_ctx). Refused, by the first of these that
/// holds: `NotValid` where this isn't the valid CAM word of a connected processor, `NotRestored` where that one isn't
/// restored on this thread. Nothing changes then.
pub fn push(vps: &mut Vps, rings: &mut Rings, t: u32, cam: u32) -> Result<(), MoveRefused>
    requires thread { t < length rings.old }
    requires fit { AreFit vps.old.vps rings.old }
    ensures no_vp { named_by (length vps.old.vps) cam ≡ None → result ≡ Err NotValid }
    ensures refused { (v : ℕ) (why : MoveRefused) → named_by (length vps.old.vps) cam ≡ Some v →
        (result ≡ Err why) ↔ (push_refused (vp_in vps.old.vps v).valid (vp_in vps.old.vps v).phase t ≡ Some why) }
    ensures unchanged_vps { OnErr result (vps.new ≡ vps.old) }
    ensures unchanged_rings { OnErr result (rings.new ≡ rings.old) }
    ensures vps { (v : ℕ) → named_by (length vps.old.vps) cam ≡ Some v →
        OnOk result (vps.new.vps ≡ slice_set vps.old.vps v (on t (vp_in vps.old.vps v))) }
    ensures rings { (v : ℕ) → named_by (length vps.old.vps) cam ≡ Some v →
        OnOk result (rings.new ≡ slice_set rings.old t (pushed cam (vp_in vps.old.vps v).backlog (ring_in rings.old t))) }
    ensures servers { vps.new.servers ≡ vps.old.servers }
    ensures processors { length vps.new.vps ≡ length vps.old.vps }
    ensures threads { length rings.new ≡ length rings.old }
    ensures fit { AreFit vps.new.vps rings.new }
    ensures pending { KeepsPending vps.old.vps rings.old vps.new.vps rings.new }
{
    let v = match named(vps, cam) {
        Some(v) => v,
        None => return Err(MoveRefused::NotValid),
    };
    let found = vps.get(v);
    if !found.valid {
        return Err(MoveRefused::NotValid);
    }
    match found.phase {
        Phase::Restored { t: at } if at == t => {}
        phase => return Err(MoveRefused::NotRestored { phase }),
    }
    rings.push(t, cam, found.backlog);
    vps.set(
        v,
        Vp {
            phase: Phase::On { t },
            backlog: 0,
            ..found
        },
    );
    Ok(())
}

/// Pulls the context of the processor that is on a thread, and answers its CAM word, which is valid (QEMU's
/// hw/intc/xive.c, xive_tm_pull_os_ctx). CPPR and IPB stay in the ring. `NoContext` exactly where no processor is on
/// the thread, and then nothing changes.
pub fn pull(vps: &mut Vps, rings: &mut Rings, t: u32) -> Result<u32, MoveRefused>
    requires thread { t < length rings.old }
    requires fit { AreFit vps.old.vps rings.old }
    ensures refused { (why : MoveRefused) → result ≡ Err why → why ≡ NoContext }
    ensures no_context { (result ≡ Err NoContext) ↔ ((v : ℕ) → (vp_in vps.old.vps v).phase ≢ On t) }
    ensures cam { (v : ℕ) → (vp_in vps.old.vps v).phase ≡ On t → result ≡ Ok (cam_of v) }
    ensures unchanged_vps { OnErr result (vps.new ≡ vps.old) }
    ensures unchanged_rings { OnErr result (rings.new ≡ rings.old) }
    ensures vps { (v : ℕ) → (vp_in vps.old.vps v).phase ≡ On t →
        vps.new.vps ≡ slice_set vps.old.vps v (pulled_from t (vp_in vps.old.vps v)) }
    ensures rings { OnOk result (rings.new ≡ slice_set rings.old t (pulled (ring_in rings.old t))) }
    ensures servers { vps.new.servers ≡ vps.old.servers }
    ensures processors { length vps.new.vps ≡ length vps.old.vps }
    ensures threads { length rings.new ≡ length rings.old }
    ensures fit { AreFit vps.new.vps rings.new }
    ensures pending { KeepsPending vps.old.vps rings.old vps.new.vps rings.new }
{
    let v = match named(vps, rings.get(t).cam) {
        Some(v) => v,
        None => return Err(MoveRefused::NoContext),
    };
    let found = vps.get(v);
    let cam = rings.pull(t);
    vps.set(
        v,
        Vp {
            phase: Phase::Pulled { t },
            ..found
        },
    );
    Ok(cam)
}
