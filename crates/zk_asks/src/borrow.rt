//! `borrow_first`, `borrow_ask`: a client's payload judged and returned borrowed, without memory.
ghost use Rattle.std.specs.Prelude.{◌≡◌, Ok, IfOk, IfErr};
ghost use Rattle.zk_jute.specs.{declared.fault.Reason.TheVariants.NoMemory, Told.IsSurelyTold};
ghost use Rattle.zk_asks.specs.{Held.ClientFrame, Frames.IsSent, Frames.IsFirst, Frames.IsLater, Frames.IsOfProfile};
ghost use Rattle.zk_asks.specs.Frames as frames;
ghost use Rattle.zk_asks.specs.Faults.{IsAskFault, IsFirstFault};

use crate::frame::{ClientFrameOf, ClientRef};
use crate::judge::judge_ask;
use crate::known::judged_request;
use zk_jute::{ItemFault, scan_flagged};
use zk_records::{ConnectRequestRef, Profile};

fn ask_ref<'a>(profile: Profile, payload: &'a [u8]) -> Result<ClientRef<'a>, ItemFault>
    ensures found { IfOk result (λ f. IsLater f × IsOfProfile profile f × IsSent f × (payload.now ≡ frames.payload f)) }
    ensures fault { IfErr result (IsSurelyTold (IsAskFault profile payload.now)) }
{
    let outline = judge_ask::<ItemFault>(profile, payload)?;
    Ok(judged_request(payload, outline))
}

/// A later payload of a client, borrowed. Decides as `read_ask` does, allocates nothing, and never returns `NoMemory`.
pub fn borrow_ask<'a>(profile: Profile, payload: &'a [u8]) -> Result<ClientRef<'a>, ItemFault>
    // What is read has the form, and is the payload's one value.
    ensures found { IfOk result (λ f. IsLater f × IsOfProfile profile f × IsSent f × (payload.now ≡ frames.payload f)) }
    // What has the form is read.
    ensures only { (f : ClientFrame) → IsLater f → IsOfProfile profile f → IsSent f → payload.now ≡ frames.payload f → result ≡ Ok f }
    // Else the first case that applies is reported.
    ensures fault { IfErr result (IsSurelyTold (IsAskFault profile payload.now)) }
{
    ask_ref(profile, payload)
}

fn first_in<'a>(payload: &'a [u8]) -> Result<ClientRef<'a>, ItemFault>
    ensures found { IfOk result (λ f. IsFirst f × IsSent f × (payload.now ≡ frames.payload f)) }
    ensures fault { IfErr result (IsSurelyTold (IsFirstFault payload.now)) }
{
    let (hello, read_only) = scan_flagged::<ConnectRequestRef>(payload)?;
    Ok(ClientFrameOf::Connect { hello, read_only })
}

/// The first payload of a client, borrowed. Decides as `read_first` does, allocates nothing, and never returns
/// `NoMemory`.
pub fn borrow_first<'a>(payload: &'a [u8]) -> Result<ClientRef<'a>, ItemFault>
    // What is read has the form, and is the payload's one value.
    ensures found { IfOk result (λ f. IsFirst f × IsSent f × (payload.now ≡ frames.payload f)) }
    // What has the form is read.
    ensures only { (f : ClientFrame) → IsFirst f → IsSent f → payload.now ≡ frames.payload f → result ≡ Ok f }
    // Else the first case that applies is reported.
    ensures fault { IfErr result (IsSurelyTold (IsFirstFault payload.now)) }
{
    first_in(payload)
}
