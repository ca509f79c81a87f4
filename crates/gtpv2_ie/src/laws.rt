ghost use Rattle.std.specs.Prelude.{List};
ghost use Rattle.std.specs.List.{AllByRecursion};
ghost use Rattle.gtpv2_ie.specs.Element.{Element};
ghost use Rattle.gtpv2_ie.specs.ReadBack.{ReadBack};
ghost use Rattle.gtpv2_ie.specs.Spelling.{spellings};
ghost use Rattle.gtpv2_ie.specs.Validity.{IsElement};

/// Elements that are written one behind another stand there in that order, and each reads as the
/// value that was written.
pub fn elements_read_back()
    ensures { (ies : List Element) → AllByRecursion IsElement ies → ReadBack (spellings ies) ies }
{}
