//! What a session is sent.

ghost use Rattle.nv_painter.specs.Spoken.{AreSendable, IsSpeakable, painting_after, spoken_batch, spoken_messages, spoken_scene};
ghost use Rattle.nv_screen.specs.Sound.{IsSoundScene};
ghost use Rattle.std.specs.Prelude.{◌≡◌, ◌++◌, OnOk, Some};

use crate::painter::Painter;
use nv_redraw::write_batch;
use nv_rpc::{Message, put_message};
use nv_screen::HeldScene;
use std::alloc::{AllocError, Global};

/// What is due to a session: messages in order, and the scene that its UI is to show, where there
/// is one.
#[derive(Drop)]
pub struct Batch {
    pub messages: Vec<Message>,
    pub scene: Option<HeldScene>,
}

fn speak_messages(
    alloc: Global,
    messages: Vec<Message>,
    into: &mut Vec<u8>,
) -> Result<(), AllocError>
    requires { AreSendable messages.items }
    ensures { OnOk result (into.new.items ≡ into.old.items ++ spoken_messages messages.items) }
{
    for message in messages {
        put_message(alloc, message, into)?;
    }
    Ok(())
}

fn speak_scene(
    painter: &mut Painter,
    alloc: Global,
    scene: HeldScene,
    into: &mut Vec<u8>,
) -> Result<(), AllocError>
    requires { IsSoundScene scene }
    ensures spoken { OnOk result (into.new.items
        ≡ into.old.items ++ spoken_scene painter.old.told (Some scene)) }
    ensures after { OnOk result (painter.new ≡ painting_after painter.old (Some scene)) }
{
    let events = painter.paint(alloc, scene.into_scene())?;
    write_batch(events.as_slice(), into)
}

impl Painter {
    /// Writes what is due to a session at the end of `into`: its messages, and then the redraw
    /// notification where there is a scene. Without memory the painter is spent.
    pub fn speak(
        &mut self,
        alloc: Global,
        batch: Batch,
        into: &mut Vec<u8>,
    ) -> Result<(), AllocError>
        requires { IsSpeakable batch }
        ensures spoken { OnOk result (into.new.items
            ≡ into.old.items ++ spoken_batch self.old.told batch) }
        ensures after { OnOk result (self.new ≡ painting_after self.old batch.scene) }
    {
        let Batch { messages, scene } = batch;
        speak_messages(alloc, messages, into)?;
        match scene {
            Some(scene) => speak_scene(self, alloc, scene, into),
            None => Ok(()),
        }
    }
}
