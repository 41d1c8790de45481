//! Laws of providers, as contracts of functions that do nothing.
ghost use Rattle.std.specs.Prelude.{◌≡◌, ◌↔◌, List, Contains};
ghost use Rattle.rocks_text.specs.declared.item.Item.{Item};
ghost use Rattle.rocks_version.specs.declared.key.RockKey.{RockKey};
ghost use Rattle.providers.specs.Lists.{pairs_in, AreListed, AreProviders, Entries};

/// A set has one list of providers, whatever the order in which its pairs are given and however often.
pub fn one_list()
    ensures { (pairs more : List (Item × RockKey)) (left right : Entries)
        → ((pair : Item × RockKey) → Contains pairs pair ↔ Contains more pair)
        → AreProviders pairs left → AreProviders more right → left ≡ right }
{}

/// Every list of providers is that of some set: of its own pairs.
pub fn own_pairs()
    ensures { (entries : Entries) → AreListed entries
        → AreProviders (pairs_in entries) entries }
{}
