// Document 01's starred cases, proved of the definitions in one table under one statement: specs/Cases.antt.

#![tactic(auto)]
