// The hall plan of 01 and its other small networks, worked through in specs/Table.antt.
#![tactic(auto)]
