//! What a text means is sound. The function does nothing: its contract is the law, a statement over the definitions alone.

ghost use Rattle.sm_reader.specs.Laws.{TextIsSound};

/// The instance that a text means meets what is asked of an instance.
pub fn text_is_sound()
    ensures { TextIsSound }
{}
