//! What holds of every image.
ghost use Rattle.std.specs.Prelude.{List, ℕ};
ghost use Rattle.jc_commit.specs.Image.{IsGoodLog, StillRecovers};
ghost use Rattle.jc_commit.specs.Replay.{after_replays};

/// Recovery may be interrupted anywhere, any number of times: however often a replay of an image's
/// entries is begun, and after whatever number of its writes each of them is stopped, the words that
/// a recovery leaves stay the same.
pub fn recovery_may_be_interrupted()
    ensures { (w : List ℕ) (stops : List ℕ) → IsGoodLog w
        → StillRecovers w (after_replays stops w) }
{}
