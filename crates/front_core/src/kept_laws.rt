//! The law of one line more.
ghost use Rattle.front_core.specs.Kept.{NoLineIsKept};
ghost use Rattle.front_core.specs.Lines.{NotedIsKept, MovedIsKept, CommandIsKept, PacketIsKept};

/// What is kept is true before the first line, and stays true behind a line of each kind.
pub fn lines_are_kept()
    ensures none { NoLineIsKept }
    ensures noted { NotedIsKept }
    ensures moved { MovedIsKept }
    ensures command { CommandIsKept }
    ensures packet { PacketIsKept }
{}
