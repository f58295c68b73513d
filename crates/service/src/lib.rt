//! What a session runs its calls on: a service, known only by its written step.
#![tactic(auto)]

ghost use Rattle.std.specs.Prelude.{◌≡◌, ◌++◌, length, drop};
ghost use Rattle.service.specs.Service.{ServiceModel, ServiceLaws};

/// A content and a step from content and body to a new content and a reply of 1 to 256 bytes.
pub trait Service {
    ghost model: { ServiceModel };

    ghost content: { Self → model.Content };

    ghost lawful: { ServiceLaws model };

    /// Does the step on any bytes, writes the reply at the front of `out`, and says how long it is.
    // The buffer is the caller's: what lies behind the reply stays, which a returned byte string could not promise.
    fn run(&mut self, body: &[u8], out: &mut [u8; 256]) -> usize
        ensures content { content self.new ≡ model.next (content self.old) body.now }
        ensures size { result ≡ length (model.reply (content self.old) body.now) }
        ensures out { out.new ≡ model.reply (content self.old) body.now ++ drop result out.old };
}
