ghost use Rattle.vrl_value.specs.Laws.{ItemsAreLists, MembersAreMaps, MembersStayJson, MomentsReadBack, RegexesStayBelow, TreesAreTold, TreesStayInOrder};

/// The members of an object are a map: what is put at a name is found there, what replaced a value
/// is found in its place, what was taken out is not found, and at every other name what was there
/// before. Those in order among which the same is found at each name are the same. This takes no
/// time: it is a law about the definitions.
pub fn members_are_maps()
    ensures { MembersAreMaps }
{}

/// The items of an array are a list: what is found at each place where one was put, replaced or
/// taken out. Those that have the same at each place are the same. This takes no time: it is a law
/// about the definitions.
pub fn items_are_lists()
    ensures { ItemsAreLists }
{}

/// Trees stay in order where a part in order is put, replaced or taken out, and what is found in a
/// tree in order is in order. This takes no time: it is a law about the definitions.
pub fn trees_stay_in_order()
    ensures { TreesStayInOrder }
{}

/// Two trees in order of which look-up tells the same at every path are the same. This takes no
/// time: it is a law about the definitions.
pub fn trees_are_told()
    ensures { TreesAreTold }
{}

/// Regexes that are among the first so many stay so where a part is put, replaced or taken out, and
/// in what is found; and in a tree in order they are where each that look-up finds is. This takes
/// no time: it is a law about the definitions.
pub fn regexes_stay_below()
    ensures { RegexesStayBelow }
{}

/// What is found among members that are JSON is JSON, and they stay JSON where JSON is put among
/// them. This takes no time: it is a law about the definitions.
pub fn members_stay_json()
    ensures { MembersStayJson }
{}

/// The text of a moment, read, is the same moment, and no text names two. This takes no time: it is
/// a law about the definitions.
pub fn moments_read_back()
    ensures { MomentsReadBack }
{}
