//! What follows from the tables: each function here is a law, and its body is empty.
ghost use Rattle.mix_sources.specs.Laws.{WrittenIsAccepted};

/// The object of settings gives these very settings again.
pub fn written_settings_are_accepted()
    ensures again { WrittenIsAccepted }
{}
