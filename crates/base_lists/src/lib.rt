// A choice by a test, and folds over the numbers below a bound, for the definitions of every crate above: there is no code.
#![tactic(auto)]
